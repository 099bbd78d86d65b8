// Plans that a table gives: a row for each job, which its place names.
ghost use Rattle.std.specs.Prelude.{◌≡◌, map, fold, All, IsSome, IfOk, true, nat_eq, nat_le};
ghost use Rattle.std.specs.Prelude.{slice_get};
ghost use Rattle.std.specs.List.{list_all};
ghost use Rattle.access_context.specs.Read.{value_read};
ghost use Rattle.graph_tests.specs.Tables.{row_access, row_added, row_refuses, is_above};
ghost use Rattle.graph_tests.specs.Tables.{stratum_at, job_at, is_sound_row, is_sound, add_read};
ghost use Rattle.graph_tests.specs.Tables.{refusal_at, table};
ghost use Rattle.graph_tests.specs.TableLaws.{table_lawful};

use access_context::{Access, Outcome, Reads, Settled, Spec};
use job_graph::Plan;
use plain_lists::{Sequence, Text};
use refusal_codes::{NoMemory, Refusal, Rule};
use std::alloc::Global;
use std::sync::Arc;

/// A job's stratum, what it waits for, the jobs that it adds, and whether it is refused.
pub type Row = (u8, Access<u32>, Sequence<u32>, bool);

/// A row as it is listed: a stratum, what is read, the stratum that is awaited, what is added, and
/// whether it is refused.
pub type Listed<'a> = (u8, &'a [u32], Option<u8>, &'a [u32], bool);

/// A row of these parts.
fn row(alloc: Global, listed: &Listed) -> Result<Row, NoMemory> {
    let reads = Sequence::from_vec(Vec::from_slice(alloc, listed.1)?);
    let added = Sequence::from_vec(Vec::from_slice(alloc, listed.3)?);
    let awaits = listed.2;
    Ok((listed.0, Access { reads, awaits }, added, listed.4))
}

fn rows_of(alloc: Global, listed: &[Listed]) -> Result<Vec<Row>, NoMemory> {
    let mut rows = Vec::with_capacity(alloc, listed.len())?;
    for it in listed {
        rows.push(row(alloc, it)?)?;
    }
    Ok(rows)
}

/// A plan by its table. A refused job adds nothing. What comes of any other is the sum of its id
/// and of the values that
/// it reads, in 32 bits.
#[derive(Drop)]
pub struct Table {
    opening: Vec<u32>,
    rows: Vec<Row>,
    ghost sound: { is_sound rows.items ≡ true },
}

impl Table {
    /// The plan that begins with these jobs, where the rows keep the laws of strata.
    pub fn listed(
        alloc: Global,
        opening: &[u32],
        listed: &[Listed],
    ) -> Result<Option<Table>, NoMemory> {
        let opening = Vec::from_slice(alloc, opening)?;
        Ok(Table::of(opening, rows_of(alloc, listed)?))
    }

    fn of(opening: Vec<u32>, rows: Vec<Row>) -> Option<Table> {
        if is_sound(rows.as_slice()) {
            Some(Table { opening, rows })
        } else {
            None
        }
    }
}

/// The stratum of a job.
fn stratum_at(rows: &[Row], id: u32) -> u8
    ensures { result ≡ stratum_at rows.now id }
{
    match rows.get(id as usize) {
        Some(row) => row.0,
        None => 0,
    }
}

/// Whether none of these jobs is of a higher stratum.
fn are_below(rows: &[Row], stratum: u8, ids: &[u32]) -> bool
    ensures { result ≡ list_all (λ read. nat_le (stratum_at rows.now read) stratum) ids.now }
{
    for id in ids {
        if stratum_at(rows, *id) > stratum {
            return false;
        }
    }
    true
}

/// Whether none of these jobs is of a lower stratum.
fn are_above(rows: &[Row], stratum: u8, ids: &[u32]) -> bool
    ensures { result ≡ list_all (λ added. nat_le stratum (stratum_at rows.now added)) ids.now }
{
    for id in ids {
        if stratum > stratum_at(rows, *id) {
            return false;
        }
    }
    true
}

/// Whether a stratum is above the one that is awaited.
fn is_above(stratum: u8, awaits: Option<u8>) -> bool
    ensures { result ≡ is_above stratum awaits }
{
    match awaits {
        None => true,
        Some(awaited) => awaited < stratum,
    }
}

/// Whether a row keeps the laws of strata.
fn is_sound_row(rows: &[Row], row: &Row) -> bool
    ensures { result ≡ is_sound_row rows.now row.now }
{
    are_below(rows, row.0, row.1.reads.as_slice())
        && is_above(row.0, row.1.awaits)
        && are_above(rows, row.0, row.2.as_slice())
}

/// Whether each row does.
fn is_sound(rows: &[Row]) -> bool
    ensures { result ≡ is_sound rows.now }
{
    for row in rows {
        if !is_sound_row(rows, row) {
            return false;
        }
    }
    true
}

/// The job with this id.
fn job_at(alloc: Global, rows: &[Row], id: u32) -> Result<Spec<u32>, NoMemory>
    ensures { IfOk result (λ job. job ≡ job_at rows.now id) }
{
    let access = match rows.get(id as usize) {
        Some(row) => row.1.copy(alloc)?,
        None => Access {
            reads: Sequence::new(alloc),
            awaits: None,
        },
    };
    Ok(Spec { id, access })
}

/// The jobs with these ids.
fn jobs_at(alloc: Global, rows: &[Row], ids: &[u32]) -> Result<Vec<Spec<u32>>, NoMemory>
    ensures { IfOk result (λ jobs. jobs.items ≡ map (job_at rows.now) ids.now) }
{
    let mut jobs = Vec::with_capacity(alloc, ids.len())?;
    for id in ids {
        jobs.push(job_at(alloc, rows, *id)?)?;
    }
    Ok(jobs)
}

/// The jobs that a job adds.
fn added_by(alloc: Global, rows: &[Row], id: u32) -> Result<Vec<Spec<u32>>, NoMemory>
    ensures { IfOk result (λ jobs. jobs.items
        ≡ map (job_at rows.now) (row_added (slice_get rows.now id))) }
{
    match rows.get(id as usize) {
        Some(row) => jobs_at(alloc, rows, row.2.as_slice()),
        None => Ok(Vec::new(alloc)),
    }
}

/// What a job reads.
fn reads_at(rows: &[Row], id: u32) -> &[u32]
    ensures { result.now ≡ (row_access (slice_get rows.now id)).reads }
{
    match rows.get(id as usize) {
        Some(row) => row.1.reads.as_slice(),
        None => &[],
    }
}

/// Whether a job is refused.
fn is_refused(rows: &[Row], id: u32) -> bool
    ensures { result ≡ row_refuses (slice_get rows.now id) }
{
    match rows.get(id as usize) {
        Some(row) => row.3,
        None => false,
    }
}

/// The refusal of a job.
fn refusal_at(alloc: Global, rows: &[Row], id: u32) -> Refusal
    ensures { result ≡ refusal_at rows.now id }
{
    Refusal {
        stratum: stratum_at(rows, id),
        kind: 0,
        name: Text::new(alloc),
        rule: Rule::OpenContour,
        place: u64::from(id),
    }
}

/// The sum of a number and of the values of these items.
fn sum_of(reads: &Reads<u32, u32>, start: u32, ids: &[u32]) -> u32
    requires { All (λ id. IsSome (value_read nat_eq reads.now id)) ids.now }
    ensures { result ≡ fold (add_read reads.now) start ids.now }
{
    let mut sum = start;
    for id in ids {
        sum = sum.wrapping_add(*reads.done(id));
    }
    sum
}

impl Plan for Table {
    type Id = u32;

    type Value = u32;

    ghost meaning = { λ t. table t.opening.items t.rows.items };

    fn opening(&self, alloc: Global) -> Result<Vec<Spec<u32>>, NoMemory> {
        jobs_at(alloc, self.rows.as_slice(), self.opening.as_slice())
    }

    fn stratum(&self, id: &u32) -> u8 {
        stratum_at(self.rows.as_slice(), *id)
    }

    fn run(
        &self,
        alloc: Global,
        id: &u32,
        reads: &Reads<u32, u32>,
    ) -> Result<Outcome<u32, u32>, NoMemory> {
        let rows = self.rows.as_slice();
        if is_refused(rows, *id) {
            return Ok(Outcome {
                value: Settled::Refused(refusal_at(alloc, rows, *id)),
                added: Sequence::new(alloc),
            });
        }
        let sum = sum_of(reads, *id, reads_at(rows, *id));
        let added = added_by(alloc, rows, *id)?;
        Ok(Outcome {
            value: Settled::Done(Arc::new(alloc, sum)?),
            added: Sequence::from_vec(added),
        })
    }

    ghost lawful = { λ t. table_lawful t.opening.items t.rows.items t.sound };
}
