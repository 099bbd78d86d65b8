/// What a job makes: a variant for each kind, over what the parts of a source make.
#[derive(Debug, PartialEq, Eq, Drop)]
pub enum Item<Tree, Header, Index, Raw, Flat, Data, Order, Measures, Table, File> {
    /// The source's property list.
    Tree(Tree),
    /// What the source says of the whole font.
    Header(Header),
    /// The source's glyphs, by their names.
    Index(Index),
    /// A glyph as it is read.
    Raw(Raw),
    /// A glyph with its contours drawn.
    Flat(Flat),
    /// A simple glyph's data in the table "glyf".
    Simple(Data),
    /// A composite glyph's data in the table "glyf".
    Composite(Data),
    /// A glyph's data in the table "gvar".
    Variations(Data),
    /// The order of the font's glyphs.
    Order(Order),
    /// What the tables of metrics need.
    Advances(Measures),
    /// A table.
    Table(Table),
    /// The font.
    Font(File),
}
