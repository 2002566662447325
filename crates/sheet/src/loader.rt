// From the bytes of a sheet to loaded lines, or a refusal from 1 to 11.
ghost use Rattle.std.specs.Prelude.{◌≡◌, [], ◌∷◌, ◌*◌, ltb, length};
ghost use Rattle.sheet.specs.Load.{first_true};
ghost use Rattle.sheet.specs.Load.{load as load_of, unended as unended_of};
ghost use Rattle.sheet.specs.Promise.{answer, laid, passed, scratch_after};
ghost use Rattle.sheet.specs.Scan.{scan_all, Whole};
ghost use Rattle.sheet.specs.Scratch.{cells_per_line};
ghost use Rattle.sheet.specs.Line.{most_bytes, most_lines};

use crate::limits;
use crate::refusal::{Refused, refuse};
use crate::scan::scan;
use crate::scratch::{CELLS_PER_LINE, close, line_count};
use text::{count, fill};

// The lines of a sheet that passed refusals 1 to 3.
fn load_lines(sheet: &[u8], lines: &mut [u16]) -> Result<usize, Refused>
    requires { Whole sheet.now lines.old }
    ensures value { result ≡ answer (scan_all sheet.now) }
    ensures lines_after { lines.new ≡ laid (scan_all sheet.now) lines.old }
{
    if let Err(refused) = scan(sheet, lines) {
        fill(lines, 0);
        return Err(refused);
    }
    close(lines);
    Ok(line_count(lines))
}

// Whether the last byte isn't LF, or there is none.
fn unended(sheet: &[u8]) -> bool
    ensures { result ≡ unended_of sheet.now }
{
    sheet.last() != Some(&b'\n')
}

// The first of refusals 1 and 2 that holds.
#[tactic(auto, using(std::proofs::lemmas::Bool::Decides::nat_tests), unfolding(crate::specs::Load::first_true, crate::specs::Promise::passed))]
fn misshapen(sheet: &[u8]) -> Result<(), Refused>
    ensures { result ≡ passed (first_true 1 (ltb most_bytes (length sheet.now) ∷ unended_of sheet.now ∷ [])) }
{
    if limits::MOST_BYTES < sheet.len() {
        return Err(refuse(1, 0));
    }
    if unended(sheet) {
        return Err(refuse(2, 0));
    }
    Ok(())
}

// The first of refusals 3 to 5 that holds for n lines; types and scratch are the lengths of what is lent.
#[tactic(auto, using(std::proofs::lemmas::Bool::Decides::nat_tests), unfolding(crate::specs::Load::first_true, crate::specs::Promise::passed))]
fn too_many(n: usize, types: usize, scratch: usize) -> Result<(), Refused>
    ensures { result ≡ passed (first_true 3 (ltb most_lines n ∷ ltb types n ∷ ltb scratch (cells_per_line * n) ∷ [])) }
{
    if limits::MOST_LINES < n {
        return Err(refuse(3, 0));
    }
    if types < n {
        return Err(refuse(4, 0));
    }
    if scratch < CELLS_PER_LINE * n {
        return Err(refuse(5, 0));
    }
    Ok(())
}

// Loads a sheet into the scratch, and answers how many lines it has; types is the length of the lent type table.
pub fn load(sheet: &[u8], scratch: &mut [u16], types: usize) -> Result<usize, Refused>
    ensures value { result ≡ answer (load_of sheet.now types (length scratch.old)) }
    ensures scratch_after { scratch.new ≡ scratch_after sheet.now types scratch.old }
{
    misshapen(sheet)?;
    let n = count(sheet, b'\n', b'\n');
    too_many(n, types, scratch.len())?;
    let all = CELLS_PER_LINE * n;
    load_lines(sheet, &mut scratch[..all])
}
