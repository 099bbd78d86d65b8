ghost use Rattle.std.specs.Prelude.{◌≡◌, ◌<◌, ◌^◌, ◌++◌, ◌∷◌, List, length};
ghost use Rattle.font_assembly.specs.Checksum.{checksum};
ghost use Rattle.font_assembly.specs.File.{Table, file, file_len};
ghost use Rattle.font_assembly.specs.Directory.{AreTables, LeadsTo};

/// What a reader may rely on in the file of any tables: its length, its checksum, and that the
/// directory's record of each table leads to that table, where four bytes can say the file's
/// length. A law: the function does nothing.
pub fn directory_leads_to_tables()
    ensures len { (tables : List Table) → AreTables tables
        → length (file tables) ≡ file_len tables }
    ensures sum { (tables : List Table) → AreTables tables → checksum (file tables) ≡ 0xB1B0AFBA }
    ensures tables { (before : List Table) (table : Table) (after : List Table)
        → AreTables (before ++ table ∷ after)
        → file_len (before ++ table ∷ after) < 2 ^ 32
        → LeadsTo (file (before ++ table ∷ after)) (length before) table }
{}
