// The checks of a solved game, and of a game against the exchanged game, over their sheets.
use crate::pair::Pair;
use crate::said::Said;
use crate::shape::Side;
use crate::sheet::Sheet;
use report::words::Mark;
use sheet_lines::{BLANK, is_blank};
use solver::Verdict;
use std::fmt;

// What is asked of each solved game.
#[derive(Clone, Copy)]
pub enum RunCheck {
    Refused,
    Verdict,
    NamedStart,
    Marks,
    AdvicePlace,
    AdviceMove,
    PlanLate,
    PlanBroken,
    SplitsMany,
    SplitsBlocks,
    Blocks,
    OpenEarly,
    OpenNeedless,
    Touched,
}

impl RunCheck {
    pub const ALL: [RunCheck; 14] = [
        RunCheck::Refused,
        RunCheck::Verdict,
        RunCheck::NamedStart,
        RunCheck::Marks,
        RunCheck::AdvicePlace,
        RunCheck::AdviceMove,
        RunCheck::PlanLate,
        RunCheck::PlanBroken,
        RunCheck::SplitsMany,
        RunCheck::SplitsBlocks,
        RunCheck::Blocks,
        RunCheck::OpenEarly,
        RunCheck::OpenNeedless,
        RunCheck::Touched,
    ];

    pub fn holds(self, sheet: &Sheet) -> bool {
        match self {
            RunCheck::Refused => is_accepted(sheet),
            RunCheck::Verdict => verdict_is_right(sheet),
            RunCheck::NamedStart => named_start_is_right(sheet),
            RunCheck::Marks => everywhere(sheet, |state| mark_is_right(sheet, state)),
            RunCheck::AdvicePlace => everywhere(sheet, |state| advice_is_where_due(sheet, state)),
            RunCheck::AdviceMove => everywhere(sheet, |state| sheet.plan().advises_a_move(state)),
            RunCheck::PlanLate => everywhere(sheet, |state| plan_is_in_time(sheet, state)),
            RunCheck::PlanBroken => everywhere(sheet, |state| plan_is_kept(sheet, state)),
            RunCheck::SplitsMany => splits_are_few(sheet),
            RunCheck::SplitsBlocks => splits_are_blocks_won(sheet),
            RunCheck::Blocks => everywhere(sheet, |state| block_is_right(sheet, state)),
            RunCheck::OpenEarly => open_is_used_up(sheet),
            RunCheck::OpenNeedless => open_is_needed(sheet),
            RunCheck::Touched => later_places_are_blank(&sheet.said, sheet.states()),
        }
    }
}

// How it is said that the check failed.
impl fmt::Display for RunCheck {
    fn fmt<W: fmt::Write>(&self, f: &mut fmt::Formatter<W>) -> fmt::Result {
        f.write_str(match self {
            RunCheck::Refused => "files refused",
            RunCheck::Verdict => "verdicts wrong",
            RunCheck::NamedStart => "named starts wrong",
            RunCheck::Marks => "marks wrong",
            RunCheck::AdvicePlace => "advice missing or not due",
            RunCheck::AdviceMove => "advice that is no move",
            RunCheck::PlanLate => "plans that come too late or never",
            RunCheck::PlanBroken => "plans that let the other side have its way",
            RunCheck::SplitsMany => "splits too many",
            RunCheck::SplitsBlocks => "splits not the blocks won",
            RunCheck::Blocks => "blocks wrong",
            RunCheck::OpenEarly => "open with splits left",
            RunCheck::OpenNeedless => "open with splits enough",
            RunCheck::Touched => "later places touched",
        })
    }
}

// What is asked of a game and the exchanged game.
#[derive(Clone, Copy)]
pub enum PairCheck {
    Written,
    LeadsBack,
    Winners,
    Verdicts,
    Splits,
    Blocks,
    Moves,
    Marks,
}

impl PairCheck {
    pub const ALL: [PairCheck; 8] = [
        PairCheck::Written,
        PairCheck::LeadsBack,
        PairCheck::Winners,
        PairCheck::Verdicts,
        PairCheck::Splits,
        PairCheck::Blocks,
        PairCheck::Moves,
        PairCheck::Marks,
    ];

    // What is said of the exchanged run is asked where the game has a single start.
    pub fn holds(self, pair: &Pair) -> bool {
        match self {
            PairCheck::Written => pair.is_written,
            PairCheck::LeadsBack => pair.leads_back,
            PairCheck::Winners => winners_trade(pair),
            _ => pair.one.starts() != 1 || self.holds_of_said(pair),
        }
    }

    fn holds_of_said(self, pair: &Pair) -> bool {
        let one = &pair.one.said;
        let other = &pair.other.said;
        let states = pair.one.states();
        match self {
            PairCheck::Verdicts => verdicts_trade(one, other),
            PairCheck::Splits => one.splits() == other.splits(),
            PairCheck::Blocks => one.blocks[..states] == other.blocks[..states],
            PairCheck::Moves => one.moves[..states] == other.moves[..states],
            PairCheck::Marks => (0..states).all(|state| marks_trade(one, other, state)),
            _ => true,
        }
    }
}

// How it is said that the check failed.
impl fmt::Display for PairCheck {
    fn fmt<W: fmt::Write>(&self, f: &mut fmt::Formatter<W>) -> fmt::Result {
        f.write_str(match self {
            PairCheck::Written => "exchanges refused or of another length",
            PairCheck::LeadsBack => "exchanges that do not lead back",
            PairCheck::Winners => "exchanged winners wrong",
            PairCheck::Verdicts => "exchanged verdicts wrong",
            PairCheck::Splits => "exchanged splits wrong",
            PairCheck::Blocks => "exchanged blocks wrong",
            PairCheck::Moves => "exchanged moves wrong",
            PairCheck::Marks => "exchanged marks wrong",
        })
    }
}

fn everywhere<P: Fn(usize) -> bool>(sheet: &Sheet, holds: P) -> bool
    requires { P.IsAlwaysCallable holds }
{
    (0..sheet.states()).all(holds)
}

// An accepted game has a state.
fn is_accepted(sheet: &Sheet) -> bool {
    sheet.states() > 0 && sheet.said.verdict.is_ok()
}

// YES if and only if some start wins; nothing is asked of OPEN.
fn verdict_is_right(sheet: &Sheet) -> bool {
    let some = lowest_start(sheet, |state| sheet.wins(state)).is_some();
    sheet.said.is_open() || some == (sheet.said.winner() == Some(Side::One))
}

// The lowest-numbered sure initial state is named, and wins; for NO and OPEN there is none, and for NO no open one either.
fn named_start_is_right(sheet: &Sheet) -> bool {
    let said = &sheet.said;
    let sure = lowest_start(sheet, |state| matches!(said.mark(state), Some(Mark::Sure)));
    let open = lowest_start(sheet, |state| matches!(said.mark(state), Some(Mark::Open)));
    let named = said.named();
    named == sure
        && match said.verdict {
            Ok(Verdict::Yes(start, _)) => sheet.wins(usize::from(start.0)),
            Ok(Verdict::No(_)) => open.is_none(),
            Ok(Verdict::Open(_)) => named.is_none(),
            Err(_) => false,
        }
}

// The lowest-numbered initial state of which this holds.
fn lowest_start<P: Fn(usize) -> bool>(sheet: &Sheet, holds: P) -> Option<usize>
    requires { P.IsAlwaysCallable holds }
{
    (0..sheet.states()).find(|state| sheet.board.is_start(*state) && holds(*state))
}

// At most the allowance, and at most the states less the blocks at the start.
fn splits_are_few(sheet: &Sheet) -> bool {
    let splits = sheet.said.splits();
    splits <= sheet.said.allowance && usize::from(splits) <= most_splits(sheet)
}

// The states less the blocks at the start.
fn most_splits(sheet: &Sheet) -> usize {
    sheet.states().saturating_sub(sheet.blocks_before())
}

// The splits are the blocks at the end less the blocks at the start.
fn splits_are_blocks_won(sheet: &Sheet) -> bool {
    let won = sheet.blocks_after().checked_sub(sheet.blocks_before());
    won == Some(usize::from(sheet.said.splits()))
}

// OPEN comes only when the splits made are the allowance.
fn open_is_used_up(sheet: &Sheet) -> bool {
    !sheet.said.is_open() || sheet.said.splits() == sheet.said.allowance
}

// OPEN never comes if the allowance is at least the states less the blocks at the start.
fn open_is_needed(sheet: &Sheet) -> bool {
    !sheet.said.is_open() || usize::from(sheet.said.allowance) < most_splits(sheet)
}

// A sure state wins, a never state loses, and there is no other mark than these and open.
fn mark_is_right(sheet: &Sheet, state: usize) -> bool {
    match sheet.said.mark(state) {
        Some(Mark::Never) => !sheet.wins(state),
        Some(Mark::Open) => true,
        Some(Mark::Sure) => sheet.wins(state),
        None => false,
    }
}

fn advice_is_where_due(sheet: &Sheet, state: usize) -> bool {
    sheet.said.advised(state).is_some() == advice_is_due(sheet, state)
}

// A move is due at the states of the winner's that are marked for it, and of those, where the winner hunts, at the ones where the
// hunt has not ended.
fn advice_is_due(sheet: &Sheet, state: usize) -> bool {
    let plan = sheet.plan();
    plan.is_winners(state) && plan.is_winners_turn(state) && !plan.is_met(state)
}

// From each state that is marked for a winner that hunts, the hunt ends within one move less than there are states.
fn plan_is_in_time(sheet: &Sheet, state: usize) -> bool {
    let plan = sheet.plan();
    let time = sheet.time(state);
    let in_time = time.is_some_and(|moves| usize::from(moves) < sheet.states());
    !plan.is_winners(state) || !plan.winner_hunts() || in_time
}

// From each state that is marked for the winner the play goes on to such states only, and if the winner does not hunt, none of
// them is one that the other side hunts for.
fn plan_is_kept(sheet: &Sheet, state: usize) -> bool {
    let plan = sheet.plan();
    if !plan.is_winners(state) {
        return true;
    }
    !plan.is_left(state) && (plan.winner_hunts() || !plan.is_prey(state))
}

// A block's number is its lowest member, and the block lies within one at the start.
fn block_is_right(sheet: &Sheet, state: usize) -> bool {
    let Some(number) = sheet.said.block(state) else {
        return false;
    };
    let block = usize::from(number.0);
    block <= state
        && sheet.said.block(block) == Some(number)
        && sheet.board.block(block) == sheet.board.block(state)
}

fn later_places_are_blank(said: &Said, states: usize) -> bool {
    [&said.marks, &said.blocks, &said.moves]
        .iter()
        .all(|row| is_blank(*row, states, &BLANK))
}

// What side 1 wins, side 2 wins of the exchanged game.
fn winners_trade(pair: &Pair) -> bool {
    everywhere(
        &pair.one,
        |state| pair.one.wins(state) != pair.other.wins(state),
    )
}

// YES and NO trade places, and OPEN stays.
fn verdicts_trade(one: &Said, other: &Said) -> bool {
    matches!(
        (one.verdict, other.verdict),
        (Ok(Verdict::Yes(..)), Ok(Verdict::No(_)))
            | (Ok(Verdict::No(_)), Ok(Verdict::Yes(..)))
            | (Ok(Verdict::Open(_)), Ok(Verdict::Open(_)))
    )
}

// Sure and never trade places, and open stays.
fn marks_trade(one: &Said, other: &Said, state: usize) -> bool {
    matches!(
        (one.mark(state), other.mark(state)),
        (Some(Mark::Never), Some(Mark::Sure))
            | (Some(Mark::Sure), Some(Mark::Never))
            | (Some(Mark::Open), Some(Mark::Open))
    )
}
