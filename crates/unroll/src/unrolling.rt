//! From the text of a found description to one that is accepted.
ghost use Rattle.std.specs.Prelude.{◌≡◌, ◌++◌, true, false, cond, List, IfOk, IfErr, OnOk};
ghost use Rattle.std.specs.Bool.{OnTrue};
ghost use Rattle.statement.specs.Tree.{Tree, Trees, trees_of};
ghost use Rattle.statement.specs.Items.{alternatives};
ghost use Rattle.statement.specs.Profile.{HasNoFault};
ghost use Rattle.statement.specs.Reading.{Reads};
ghost use Rattle.kif.specs.View.{trees_in};
ghost use Rattle.meaning.specs.Derivable.{IsStratified};
ghost use Rattle.meaning.specs.Extension.{base_relation, input_relation};
ghost use Rattle.meaning.specs.Possible.{IsStated, PlaysAs};
ghost use Rattle.unroll_strata.specs.Lawful.{IsLawful, IsRecursive, IsRefusal};
ghost use Rattle.unroll.specs.Played.{played_items};
ghost use Rattle.unroll.specs.Written.{IsShown, IsUnrollFault, IsWrittenFor, IsWrittenOut, shown_line, tested_line};

use crate::showing::is_shown;
use kif::{Expr, TEXT_LIMIT};
use statement::RuleFault;
use std::alloc::{AllocGlobal, Global};
use unroll_datalog::{Excess, LimitFault};
use unroll_strata::{
    UnrollFault, accept, found_items, is_recursive, items_that_cross_nothing_are_stratified,
    plain_forms, read_back, refuse_crossed, refuse_unstated, role_places, states_ranges,
};
use unroll_writer::{Bounds, Draft, Layers, Written};

/// The first line of what is shown to be played as what it was written for.
pub const SHOWN: &[u8] = b"; Shown: played as what it was written for.\n";

/// The first line of what is not.
pub const TESTED: &[u8] = b"; Tested and not shown: played as what it was written for.\n";

/// A limit that is passed.
fn too_many(fault: LimitFault) -> UnrollFault
    ensures { (items : List Tree) → IsRefusal items result }
{
    match fault {
        LimitFault::TooMany(excess) => UnrollFault::TooMany(excess),
        LimitFault::NoMemory => UnrollFault::NoMemory,
    }
}

/// Refuses items that rest on themselves and of which a body rests on what the head may not rest on. That it is the first such item is tested,
/// and no clause says so.
fn refuse_bad(draft: &mut Draft, rests_on_itself: bool) -> Result<(), UnrollFault>
    ensures { (items : List Tree) → OnTrue rests_on_itself (IsRecursive items) → IfErr result (IsRefusal items) }
{
    if !rests_on_itself {
        return Ok(());
    }
    match draft.first_bad() {
        Ok(None) => Ok(()),
        Ok(Some(item)) => Err(UnrollFault::Rules(RuleFault::BadDependence(item))),
        Err(_) => Err(UnrollFault::NoMemory),
    }
}

/// What is written of items. No clause says that it is played as these: who takes it looks whether that can be shown.
fn written(draft: &mut Draft, bounds: Bounds) -> Result<Written, UnrollFault>
    ensures { (items : List Tree) → IfErr result (IsRefusal items) }
{
    match draft.written(bounds) {
        Ok(out) => Ok(out),
        Err(fault) => Err(too_many(fault)),
    }
}

/// Items by number.
fn draft_of(alloc: Global, items: &[Expr<Global>]) -> Result<Draft, UnrollFault>
    ensures { IfErr result (IsRefusal (trees_in items.now)) }
{
    match Draft::new(alloc, items) {
        Ok(draft) => Ok(draft),
        Err(fault) => Err(too_many(fault)),
    }
}

/// What is written of items, and of each of them whether the relation that it heads is fixed and rests on itself.
#[derive(Drop)]
struct Drafted {
    written: Written,
    circles: Vec<bool>,
}

/// The items written out, where it is known whether they rest on themselves.
fn written_out(
    alloc: Global,
    items: &[Expr<Global>],
    bounds: Bounds,
    rests_on_itself: bool,
) -> Result<Drafted, UnrollFault>
    requires { OnTrue rests_on_itself (IsRecursive (trees_in items.now)) }
    ensures { IfErr result (IsRefusal (trees_in items.now)) }
{
    let mut draft = draft_of(alloc, items)?;
    refuse_bad(&mut draft, rests_on_itself)?;
    let written = match written(&mut draft, bounds) {
        Ok(written) => written,
        Err(fault) => return Err(fault),
    };
    match draft.fixed_circles() {
        Ok(circles) => Ok(Drafted { written, circles }),
        Err(_) => Err(UnrollFault::NoMemory),
    }
}

/// The items of a text that was written for others.
fn items_written(
    alloc: Global,
    items: &[Expr<Global>],
    text: &[u8],
) -> Result<Vec<Expr<Global>>, UnrollFault>
    ensures reads { IfOk result (λ written. Reads text.now (trees_of (trees_in written.items))) }
    ensures fault { IfErr result (IsRefusal (trees_in items.now)) }
{
    match read_back(alloc, text) {
        Ok(written) => Ok(written),
        Err(fault) => Err(fault),
    }
}

/// The first line of a text, by whether it is shown to be played as what it was written for.
fn first_line(is_shown: bool) -> &'static [u8]
    ensures { result.now ≡ cond is_shown shown_line tested_line }
{
    if is_shown { SHOWN } else { TESTED }
}

/// A line and a text behind it.
fn joined(
    alloc: Global,
    items: &[Expr<Global>],
    line: &[u8],
    text: &[u8],
) -> Result<Vec<u8>, UnrollFault>
    ensures joined { IfOk result (λ out. out.items ≡ line.now ++ text.now) }
    ensures fault { IfErr result (IsRefusal (trees_in items.now)) }
{
    let mut out = Vec::new(alloc);
    if out.extend_from_slice(line).is_err() || out.extend_from_slice(text).is_err() {
        return Err(UnrollFault::NoMemory);
    }
    Ok(out)
}

/// A text behind the line that says whether it is shown to be played as items. The line is a comment, so the text stands for what it stood
/// for, unless it is too long now.
fn with_claim(
    alloc: Global,
    items: &[Expr<Global>],
    text: &[u8],
    is_shown: bool,
) -> Result<Vec<u8>, UnrollFault>
    ensures reads { IfOk result (λ out. (written : Trees) → Reads text.now written → Reads out.items written) }
    ensures said { IfOk result (λ out. cond is_shown (IsShown out.items) (IsShown out.items → ⊥)) }
    ensures fault { IfErr result (IsRefusal (trees_in items.now)) }
{
    let out = joined(alloc, items, first_line(is_shown), text)?;
    if out.len() > TEXT_LIMIT {
        return Err(UnrollFault::TooMany(Excess::Text));
    }
    Ok(out)
}

/// Whether items stay as they are, and state `base` and `input`.
fn stay(items: &[Expr<Global>], rests_on_itself: bool, bounds: Bounds) -> bool
    ensures { rests_on_itself ≡ false → bounds ≡ Bounds.AsStated → IsStated (alternatives (trees_in items.now)) base_relation
        → IsStated (alternatives (trees_in items.now)) input_relation → result ≡ true }
{
    !rests_on_itself && bounds == Bounds::AsStated && states_ranges(items)
}

/// Whether what is written is shown to be played as the items, but for what these state of `base` and `input`, where that is cut. Where no
/// relation of these rests on itself, and `base` and `input` are stated and stay as they are, it has to be, and if it is not it is told as items
/// that are too many.
fn claim_of<T: AllocGlobal>(
    rt: &T,
    items: &[Expr<Global>],
    written: &[Expr<Global>],
    circles: &[bool],
    layers: &[Layers],
    bounds: Bounds,
    has_to_be: bool,
) -> Result<bool, UnrollFault>
    ensures shown { IfOk result (λ is_so. OnTrue is_so (HasNoFault (trees_in written.now) → IsStratified (alternatives (trees_in items.now))
        → PlaysAs (alternatives (played_items bounds (trees_in items.now))) (alternatives (trees_in written.now)))) }
    ensures always { IfOk result (λ is_so. OnTrue has_to_be (is_so ≡ true)) }
    ensures fault { IfErr result (IsRefusal (trees_in items.now)) }
{
    match is_shown(rt, items, written, circles, layers, bounds) {
        Ok(true) => Ok(true),
        Ok(false) => {
            if has_to_be {
                return Err(UnrollFault::TooMany(Excess::Items));
            }
            Ok(false)
        }
        Err(_) => Err(UnrollFault::NoMemory),
    }
}

/// The text of items of the profile, in which relations may rest on themselves, without recursion and with `base` and `input`.
fn rewritten<T: AllocGlobal>(
    rt: &T,
    items: &[Expr<Global>],
    bounds: Bounds,
) -> Result<Vec<u8>, UnrollFault>
    ensures lawful { OnOk result (IsLawful (trees_in items.now)) }
    ensures written { IfOk result (λ out. IsWrittenOut bounds (trees_in items.now) out.items) }
    ensures fault { IfErr result (IsRefusal (trees_in items.now)) }
{
    let alloc = rt.alloc();
    let places = role_places(items)?;
    let rests_on_itself = is_recursive(alloc, items)?;
    refuse_crossed(alloc, items)?;
    refuse_unstated(items)?;
    let draft = written_out(alloc, items, bounds, rests_on_itself)?;
    let text = &draft.written.text;
    let layers = &draft.written.layers;
    let written = items_written(alloc, items, text)?;
    accept(alloc, items, &places, &written)?;
    let has_to_be = stay(items, rests_on_itself, bounds);
    let is_shown = claim_of(
        rt,
        items,
        &written,
        &draft.circles,
        layers,
        bounds,
        has_to_be,
    )?;
    items_that_cross_nothing_are_stratified();
    with_claim(alloc, items, text, is_shown)
}

/// The text of a description without recursion and with `base` and `input`, in which each state and each value is that of the
/// text. That it is accepted and states the same roles is proved, by a look at what was written. Its first line says whether it is shown to
/// be played as the text, as `IsWrittenOut` says: always where no relation rests on itself and `base` and `input` are stated and stay, and
/// elsewhere where that could be shown. Of any other it is tested, and no clause says so.
pub fn unrolled<T: AllocGlobal>(rt: &T, text: &[u8], bounds: Bounds) -> Result<Vec<u8>, UnrollFault>
    ensures written { IfOk result (λ out. IsWrittenFor bounds text.now out.items) }
    ensures fault { IfErr result (IsUnrollFault text.now) }
{
    let found = found_items(rt.alloc(), text)?;
    let items = match plain_forms(rt.alloc(), &found) {
        Ok(items) => items,
        Err(_) => return Err(UnrollFault::NoMemory),
    };
    rewritten(rt, &items, bounds)
}
