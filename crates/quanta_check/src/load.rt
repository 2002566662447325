// The sheet reader alone.
ghost use Rattle.std.specs.Prelude.{◌≡◌, length};
ghost use Rattle.sheet.specs.Load.{load};
ghost use Rattle.sheet.specs.Promise.{answer, scratch_after};
ghost use Rattle.quanta_check.specs.Export.{load_of};

use sheet::Refused;

// The number of lines of a sheet that is loaded, or a refusal's number and line: C has no enum with fields.
#[repr(C)]
#[derive(Clone, Copy)]
pub struct Load {
    pub number: u32,
    pub line: usize,
    pub lines: usize,
}

#[tactic(auto, unfolding(crate::specs::Export::load_of))]
pub fn quanta_load(sheet: &[u8], scratch: &mut [u16], types: usize) -> Load
    ensures value { result ≡ load_of (answer (load sheet.now types (length scratch.old))) }
    ensures scratch_after { scratch.new ≡ scratch_after sheet.now types scratch.old }
{
    match sheet::load(sheet, scratch, types) {
        Ok(lines) => Load {
            number: 0,
            line: 0,
            lines,
        },
        Err(Refused { number, line }) => Load {
            number,
            line,
            lines: 0,
        },
    }
}
