// The program's output for a text.
#![tactic(auto)]

ghost use Rattle.std.specs.Prelude.{◌≡◌, ◌+◌, ◌*◌, ◌≤◌, length};
ghost use Rattle.text.specs.Answers.{Written};
ghost use Rattle.text.specs.Refusals.{number_of};
ghost use Rattle.language.specs.OutputOf.{case_frame, refusal_frame, Printed};
ghost use Rattle.report.specs.Lines.{CellsPut, TableLined, TablesLined, CaseLined};

use catalog::relation;
use catalog::relation::Relation;
use checker::plan;
use look;
use look::Answer;
use text;
use text::refusal::Refusal;
use value::integer;

// Room for any output: a line of 11 bytes for the case, and for each of 16 tables one of at most 135, with 32 cells.
pub const ROOM: usize = 2171;

// The bytes of cells behind the first three of a frame.
fn put_cells(cells: &[i16], frame: &mut [u8])
    requires { 3 + 2 * length cells.now ≤ length frame.old }
    ensures { CellsPut cells.now frame.old frame.new }
{
    for i in 0..cells.len() {
        let b = integer::to_bytes(cells[i]);
        frame[3 + 2 * i] = b[0];
        frame[4 + 2 * i] = b[1];
    }
}

// The line of a table with these cells.
fn table_line(t: u8, rows: u8, cells: &[i16], out: &mut [u8], at: usize) -> usize
    ensures { TableLined t rows cells.now at out.old result out.new }
{
    if 32 < cells.len() {
        return at;
    }
    let mut frame = [0u8; 67];
    frame[0] = 0x81;
    frame[1] = t;
    frame[2] = rows;
    put_cells(cells, &mut frame);
    text::write_line(&frame[..3 + 2 * cells.len()], out, at)
}

// A case: the sizes of the tables, and the cells of all of them, table after table.
#[derive(Clone, Copy)]
struct Case<'a> {
    relations: &'a [Relation],
    tables: u8,
    cells: &'a [i16],
}

impl Case<'_> {
    // A line for each table.
    fn table_lines(&self, out: &mut [u8], at: usize) -> usize
        ensures { TablesLined self.now.relations.now self.now.tables self.now.cells.now at out.old result out.new }
    {
        let mut place = at;
        let mut rest = self.cells;
        for t in 0..self.tables {
            let rows = relation::bound_of(self.relations, t);
            let columns = relation::width_of(self.relations, t);
            let n = (rows as usize) * (columns as usize);
            let Some((own, behind)) = rest.split_at_checked(n) else {
                return place;
            };
            place = table_line(t, rows, own, out, place);
            rest = behind;
        }
        place
    }

    // The lines of case k.
    fn lines(&self, k: u64, out: &mut [u8]) -> usize
        ensures { CaseLined self.now.relations.now self.now.tables k self.now.cells.now out.old result out.new }
    {
        let frame = case_frame(k);
        let at = text::write_line(&frame, out, 0);
        self.table_lines(out, at)
    }
}

fn case_frame(k: u64) -> [u8; 5]
    ensures { result ≡ case_frame k }
{
    let [_, _, _, _, a, b, c, d] = k.to_be_bytes();
    [0x80, a, b, c, d]
}

fn refusal_frame(number: u8, line: u16) -> [u8; 4]
    ensures { result ≡ refusal_frame number line }
{
    let [high, low] = line.to_be_bytes();
    [0x8f, number, high, low]
}

// The line of a refusal.
fn refusal_line(refusal: Refusal, out: &mut [u8]) -> usize
    ensures { Written (refusal_frame (number_of refusal.reason) refusal.line) 0 out.old result out.new }
{
    let frame = refusal_frame(refusal.reason.number(), refusal.line);
    text::write_line(&frame, out, 0)
}

// What the program prints for a text, at the front of a buffer with room for any output, and its length; 0 for a shorter buffer, which
// stays as it is.
// Refused: a search from candidate 1; 80 for no case.
pub fn output(text: &[u8], out: &mut [u8]) -> usize
    ensures { Printed text.now out.old result out.new }
{
    if out.len() < ROOM {
        return 0;
    }
    let p = match plan::check(text) {
        Ok(plan) => plan,
        Err(refusal) => return refusal_line(refusal, out),
    };
    let relations = p.relations;
    let tables = p.outline.tables;
    let mut work = [0i32; look::AREA];
    let mut cells = [0i16; 512];
    let a = look::look_at(Ok(p), 0, u64::MAX, &mut work, &mut cells);
    match a {
        Ok(Answer::Case(k)) => {
            let case = Case {
                relations: &relations,
                tables,
                cells: &cells,
            };
            case.lines(k, out)
        }
        Ok(Answer::NoCase) => {
            let frame = [0x82u8];
            text::write_line(&frame, out, 0)
        }
        Ok(Answer::Spent(_)) => 0,
        Err(refusal) => refusal_line(refusal, out),
    }
}
