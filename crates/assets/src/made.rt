// Expressions in which no asset may be made.
ghost use Rattle.std.specs.Prelude.{◌≡◌};
ghost use Rattle.grammar.specs.Grammar.{Expr};
ghost use Rattle.rules.specs.Asking.{for_each};
ghost use Rattle.rules.specs.Assets.{makes_asset, no_asset_call};
ghost use Rattle.rules.specs.Ast.{list};
ghost use Rattle.rules.specs.Standing.{Here, Row, expr_at, exprs_at};
ghost use Rattle.refusals.specs.Answers.{Answers};
ghost use Rattle.refusals.specs.Refusal.{done_of};
ghost use Rattle.assets.specs.Made.{is_asset_call};

use grammar::Kind;
use refusals::Refusal;
use sheet::LoadedSheet;
use text::is_word;

// Whether a call of the callee at line i makes an asset.
fn makes_asset(sheet: &LoadedSheet<'_>, i: usize) -> bool
    requires { Here sheet.now.lines.now Expr i }
    ensures { result ≡ makes_asset (expr_at sheet.now.bytes.now i) }
{
    let word = sheet.name(i);
    (sheet.is(i, Kind::Dot) & is_word(word, b"split"))
        | (sheet.is(i, Kind::Id) & is_word(word, b"mint"))
}

fn is_asset_call(sheet: &LoadedSheet<'_>, i: usize) -> bool
    requires { Here sheet.now.lines.now Expr i }
    ensures { result ≡ is_asset_call (expr_at sheet.now.bytes.now i) }
{
    if !sheet.is(i, Kind::Call) {
        return false;
    }
    makes_asset(sheet, i + 1)
}

// The lines of an expression stand in the order in which its parts are visited.
pub fn no_asset_call(sheet: &LoadedSheet<'_>, i: usize) -> Result<(), Refusal>
    requires { Here sheet.now.lines.now Expr i }
    ensures { Answers (no_asset_call (expr_at sheet.now.bytes.now i)) (done_of sheet.now.bytes.now result) }
{
    for at in i..sheet.end(i) {
        if is_asset_call(sheet, at) {
            return Err(Refusal::Dropped(at));
        }
    }
    Ok(())
}

// Each of count expressions, the first at line from.
pub fn no_asset_calls(sheet: &LoadedSheet<'_>, from: usize, count: usize) -> Result<(), Refusal>
    requires { Row sheet.now.lines.now Expr count from }
    ensures { Answers (for_each (list (exprs_at sheet.now.bytes.now count from)) no_asset_call) (done_of sheet.now.bytes.now result) }
{
    sheet
        .records(from, count)
        .try_for_each(|at| no_asset_call(sheet, at))
}
