//! Runs whose code words are all in the window, drawn with the line's own values. The functions of `context` draw the
//! others.

ghost use Rattle.std.specs.Prelude.{vec_len, vec_capacity, ◌≡◌, ◌+◌, ◌-◌, ◌%◌, ◌<◌, ◌≤◌, ◌⊎◌, IfSome};
ghost use Rattle.std.specs.Prelude.{IfNone};
ghost use Rattle.std.specs.Prelude.{min, true, false, length, ◌++◌, ◌∷◌, [], ◌^◌};
ghost use Rattle.fax_bits.specs.LookUps.{AreEntriesOf};
ghost use Rattle.fax_lines.specs.ContextSteps.{ShowSame};
ghost use Rattle.fax_lines.specs.DrawnModes.{DrawsNothing, pen_with};
ghost use Rattle.fax_reading.specs.Rows.{AreChanges, pixels};
ghost use Rattle.fax_reading.specs.UsualRuns.{IsRunHere, IsShort, IsOpen};
ghost use Rattle.fax_lines.specs.TwoRunsHere.{AreTwoRunsHere, CanFollow, DrawsRuns, MovesOn};
ghost use Rattle.fax_reading.specs.UsualRuns.{GoesOn, pen_at};
ghost use Rattle.fax_bits.specs.Window.{AtHand, moved};

use crate::pen::{RowPen, lay_down, take_up};
use fax_bits::DecodeSettings;
use fax_bits::bit_reader::Window;
use fax_bits::codes::{Color, Ticks, tick_times};
use fax_bits::pairs::pairs_of;
use fax_bits::tables::Tables;
use fax_bits::window_words::{pass_run, word_at_hand};

/// Returns the run at an offset in the window: its pixels, its bits and its number of code words. Returns `None` if it is
/// neither a terminating word nor a make-up word and a terminating word.
#[inline(always)]
pub(crate) fn run_at_hand(
    window: &Window<'_>,
    skip: usize,
    color: Color,
    words: &[u16],
) -> Option<(u32, usize, usize)>
    requires within { skip + 26 ≤ window.now.left }
    requires near { skip ≤ 29 }
    requires entries { AreEntriesOf color words.now }
    ensures run { IfSome result (λ run. IsRunHere color (moved skip window.now.at) run.0 run.1 run.2) }
    ensures below { IfSome result (λ run. (run.0 ≤ 4158) × (run.1 ≤ 26) × (run.2 ≤ 2)) }
{
    let (run, width) = word_at_hand(window, skip, color, words);
    if run < 64 {
        return Some((run, width, 1));
    }
    if run == 4095 {
        return None;
    }
    let (rest, more) = word_at_hand(window, skip + width, color, words);
    if rest < 64 {
        Some((run + rest, width + more, 2))
    } else {
        None
    }
}

/// Fills the window if it has fewer than `count` bits; returns false if it can't be filled.
#[inline(always)]
pub(crate) fn ensure_bits(window: &mut Window<'_>, count: usize) -> bool
    requires { count ≤ 57 }
    ensures same { window.new.at ≡ window.old.at }
    ensures enough { result ≡ true → count ≤ window.new.left }
    ensures most { window.old.left ≤ 64 → window.new.left ≤ 64 }
{
    window.left() >= count || window.refill()
}

/// Stores a change at the position reached, if there is room for it.
#[inline(always)]
pub(crate) fn push_change(changes: &mut Vec<u32>, place: u32)
    requires room { vec_len changes.old < vec_capacity changes.old }
    ensures items { changes.new.items ≡ changes.old.items ++ place ∷ [] }
    ensures room { vec_capacity changes.new ≡ vec_capacity changes.old }
    ensures count { vec_len changes.new ≡ vec_len changes.old + 1 }
{
    changes.push_reserved(place);
}

/// Returns whether a change at the end of a run of this length is right of the last one.
#[inline(always)]
pub(crate) fn is_next(changes: &Vec<u32>, run: u32) -> bool
    ensures { result ≡ true → (0 < run) ⊎ (changes.now.items ≡ []) }
{
    run > 0 || changes.is_empty()
}

/// Returns whether there is room for two changes, by a sum: the loop over pairs of runs then has its values in registers, in either
/// order of bits.
#[inline(always)]
fn has_room_for_pair(changes: &Vec<u32>) -> bool
    ensures { result ≡ true → vec_len changes.now + 2 ≤ vec_capacity changes.now }
{
    changes.len() + 2 <= changes.capacity()
}

/// Two runs that were read, of a colour and of the other one.
#[derive(Copy, Clone)]
pub(crate) struct TwoRuns {
    /// The pixels of the first run.
    pub(crate) first: u32,
    /// The pixels of the second run.
    pub(crate) second: u32,
    /// The number of bits of all their code words.
    pub(crate) width: usize,
    /// The number of their code words.
    pub(crate) words: usize,
}

/// Returns two runs of one code word each at an offset in the window, the first of this colour. Returns `None` if they have more
/// than twelve bits, or one of them is empty.
#[inline(always)]
pub(crate) fn pair_at_hand(window: &Window<'_>, skip: usize, color: Color) -> Option<TwoRuns>
    requires within { skip + 12 ≤ window.now.left }
    ensures runs { IfSome result (λ runs. AreTwoRunsHere color (moved skip window.now.at) runs) }
    ensures short { IfSome result (λ runs. IsShort runs.first × IsShort runs.second) }
    ensures narrow { IfSome result (λ runs. runs.width ≤ 12) }
{
    let entry = pairs_of(color)[window.peek_12(skip)];
    if entry == 0 {
        return None;
    }
    Some(TwoRuns {
        first: u32::from(entry & 63),
        second: u32::from(entry >> 6 & 63),
        width: usize::from(entry >> 12),
        words: 2,
    })
}

/// Stores the changes at the ends of two runs, that of the second one unless the row ends there or before. Returns where the second
/// run ends, or `None` if the row ends.
#[inline(always)]
pub(crate) fn push_two(row: &mut Vec<u32>, painted: u32, columns: u32, runs: TwoRuns) -> Option<u32>
    requires inside { painted + runs.first ≤ columns }
    requires small { runs.first + runs.second < 2 ^ 32 }
    requires room { vec_len row.old + 2 ≤ vec_capacity row.old }
    ensures inside { IfSome result (λ place. (place ≡ painted + runs.first + runs.second) × (place < columns)
        × (row.new.items ≡ (row.old.items ++ (painted + runs.first) ∷ []) ++ place ∷ [])) }
    ensures end { IfNone result ((columns ≤ painted + runs.first + runs.second)
        × (row.new.items ≡ row.old.items ++ (painted + runs.first) ∷ [])) }
    ensures count { (vec_len row.old ≤ vec_len row.new) × (vec_len row.new ≤ vec_len row.old + 2) }
    ensures space { vec_capacity row.new ≡ vec_capacity row.old }
{
    let first = painted + runs.first;
    push_change(row, first);
    if runs.first + runs.second >= columns - painted {
        return None;
    }
    let place = first + runs.second;
    push_change(row, place);
    Some(place)
}

/// Draws a white run that ends before the row does, and a black one after it, whose bits are passed before or after this. Returns how
/// far the row reaches then, and the colour in which it would continue.
#[inline(always)]
fn draw_both(
    row: &mut Vec<u32>,
    painted: u32,
    settings: DecodeSettings,
    runs: TwoRuns,
    ticks: &mut Ticks,
) -> (u32, Color)
    requires follow { CanFollow settings painted row.old.items runs }
    requires room { vec_len row.old + 2 ≤ vec_capacity row.old }
    ensures drawn { (window rest : AtHand) → AreTwoRunsHere Color.White window.at runs → rest.at ≡ moved runs.width window.at
        → DrawsRuns settings painted (pen_with window row.old ticks.old) result.0 result.1 (pen_with rest row.new ticks.new) }
    ensures place { result.0 ≡ painted + runs.first + min runs.second (settings.columns - (painted + runs.first)) }
    ensures space { vec_capacity row.new ≡ vec_capacity row.old }
{
    tick_times(ticks, runs.words);
    match push_two(row, painted, settings.columns, runs) {
        None => (settings.columns, Color::White),
        Some(place) => (place, Color::White),
    }
}

/// What doesn't change while the runs of a line are drawn.
#[derive(Clone, Copy)]
pub(crate) struct RunsOfLine<'a> {
    /// The settings of the image.
    pub(crate) settings: DecodeSettings,
    /// The look-up tables of runs.
    pub(crate) tables: &'a Tables,
    /// Whether two runs of one code word each are looked up together.
    pub(crate) by_pairs: bool,
    /// Whether runs have any number of code words; then none are looked up together.
    pub(crate) has_long_runs: bool,
}

/// Draws a white run and a black one of one code word each that end before the row does: the most frequent case. Returns how far
/// the row reaches then; or `None`, drawing nothing, if they aren't of that kind.
#[inline(always)]
fn draw_pair(pen: &mut RowPen<'_>, painted: u32, line: &RunsOfLine<'_>) -> Option<u32>
    requires open { IsOpen line.now.settings.columns painted pen.old.row.items }
    ensures drawn { IfSome result (λ place. GoesOn line.now.settings.strict line.now.settings.columns
        (pen_at painted pen.old.row.items Color.White pen.old.window.at)
        (pen_at place pen.new.row.items Color.White pen.new.window.at) pen.old.ticks pen.new.ticks) }
    ensures open { IfSome result (λ place. IsOpen line.now.settings.columns place pen.new.row.items) }
    ensures forward { IfSome result (λ place. painted < place) }
    ensures left { IfNone result (DrawsNothing pen.old pen.new) }
    ensures kept { MovesOn pen.old pen.new }
{
    if !line.by_pairs || !ensure_bits(&mut pen.window, 12) {
        return None;
    }
    let runs = pair_at_hand(&pen.window, 0, Color::White)?;
    if runs.first + runs.second >= line.settings.columns - painted {
        return None;
    }
    if !has_room_for_pair(&pen.row) {
        return None;
    }
    pen.window.pass(runs.width);
    let (place, _color) = draw_both(&mut pen.row, painted, line.settings, runs, &mut pen.ticks);
    Some(place)
}

/// Draws a white run and a black one, or a white one up to the row's end, as far as they are in the window. Returns how far the
/// row reaches then, and the colour in which it would continue; or `None`, drawing nothing, if they aren't of the usual kind.
#[inline(always)]
pub(crate) fn draw_two_runs(
    pen: &mut RowPen<'_>,
    painted: u32,
    settings: DecodeSettings,
    tables: &Tables,
) -> Option<(u32, Color)>
    requires open { IsOpen settings.columns painted pen.old.row.items }
    ensures drawn { IfSome result (λ reached. DrawsRuns settings painted pen.old reached.0 reached.1 pen.new) }
    ensures forward { IfSome result (λ reached. painted < reached.0) }
    ensures left { IfNone result (DrawsNothing pen.old pen.new) }
    ensures kept { MovesOn pen.old pen.new }
{
    if !ensure_bits(&mut pen.window, 26) {
        return None;
    }
    let (first, width, words) = run_at_hand(
        &pen.window,
        0,
        Color::White,
        tables.lookup(Color::White),
    )?;
    let room = settings.columns - painted;
    // A run that is cut is left to the plain calls.
    if first > room {
        return None;
    }
    if first == room {
        pen.window.pass(width);
        tick_times(&mut pen.ticks, words);
        return Some((settings.columns, Color::Black));
    }
    if !is_next(&pen.row, first) {
        return None;
    }
    if !has_room_for_pair(&pen.row) {
        return None;
    }
    if !ensure_bits(&mut pen.window, width + 26) {
        return None;
    }
    let (second, width2, words2) = run_at_hand(
        &pen.window,
        width,
        Color::Black,
        tables.lookup(Color::Black),
    )?;
    if second == 0 {
        return None;
    }
    if second > room - first {
        return None;
    }
    let runs = TwoRuns {
        first,
        second,
        width: width + width2,
        words: words + words2,
    };
    pen.window.pass(runs.width);
    Some(draw_both(&mut pen.row, painted, settings, runs, &mut pen.ticks))
}

/// Draws two runs as `draw_two_runs` does, of any number of code words.
#[inline(always)]
fn draw_two_long_runs(
    pen: &mut RowPen<'_>,
    painted: u32,
    line: &RunsOfLine<'_>,
) -> Option<(u32, Color)>
    requires open { IsOpen line.now.settings.columns painted pen.old.row.items }
    ensures drawn { IfSome result (λ reached. DrawsRuns line.now.settings painted pen.old reached.0 reached.1 pen.new) }
    ensures forward { IfSome result (λ reached. painted < reached.0) }
    ensures left { IfNone result (DrawsNothing pen.old pen.new) }
    ensures kept { MovesOn pen.old pen.new }
{
    let mut rest = pen.window.copy();
    let white = pass_run(&mut rest, Color::White, line.tables.lookup(Color::White))?;
    let columns = line.settings.columns;
    let room = columns - painted;
    if white.run >= room {
        // A run that is cut is left to the plain calls.
        if white.run > room {
            return None;
        }
        pen.window = rest;
        tick_times(&mut pen.ticks, white.words);
        return Some((columns, Color::Black));
    }
    if !is_next(&pen.row, white.run) || !has_room_for_pair(&pen.row) {
        return None;
    }
    let black = pass_run(&mut rest, Color::Black, line.tables.lookup(Color::Black))?;
    if black.run == 0 || black.run > room - white.run {
        return None;
    }
    let runs = TwoRuns {
        first: white.run,
        second: black.run,
        width: white.width + black.width,
        words: white.words + black.words,
    };
    pen.window = rest;
    Some(draw_both(&mut pen.row, painted, line.settings, runs, &mut pen.ticks))
}

/// Draws runs in pairs while they are of the usual kind. Returns how far the row reaches then, and the colour in which it
/// continues.
#[inline(always)]
fn draw_pairs(pen: &mut RowPen<'_>, painted: u32, line: &RunsOfLine<'_>) -> (u32, Color)
    requires open { IsOpen line.now.settings.columns painted pen.old.row.items }
    ensures drawn { DrawsRuns line.now.settings painted pen.old result.0 result.1 pen.new }
    ensures forward { painted ≤ result.0 }
    ensures kept { MovesOn pen.old pen.new }
{
    let mut place = painted;
    'runs: loop {
        if let Some(next) = draw_pair(pen, place, line) {
            place = next;
        } else {
            match draw_two_runs(pen, place, line.settings, line.tables) {
                None => return (place, Color::White),
                Some((next, color)) => {
                    if next == line.settings.columns {
                        return (next, color);
                    }
                    place = next;
                }
            }
        }
    }
}

/// Draws runs of any number of code words in pairs while they are of the usual kind. Returns how far the row reaches then, and the
/// colour in which it continues.
#[inline(always)]
fn draw_long_pairs(pen: &mut RowPen<'_>, painted: u32, line: &RunsOfLine<'_>) -> (u32, Color)
    requires open { IsOpen line.now.settings.columns painted pen.old.row.items }
    ensures drawn { DrawsRuns line.now.settings painted pen.old result.0 result.1 pen.new }
    ensures forward { painted ≤ result.0 }
    ensures kept { MovesOn pen.old pen.new }
{
    let mut place = painted;
    'runs: loop {
        match draw_two_long_runs(pen, place, line) {
            None => return (place, Color::White),
            Some((next, color)) => {
                if next == line.settings.columns {
                    return (next, color);
                }
                place = next;
            }
        }
    }
}

/// Draws runs in pairs, as the line's settings say. The pen is a local, so that its fields stay in registers.
#[inline(always)]
pub(crate) fn draw_runs(
    window: &mut Window<'_>,
    row: &mut Vec<u32>,
    painted: u32,
    line: &RunsOfLine<'_>,
    ticks: &mut Ticks,
) -> (u32, Color)
    requires open { IsOpen line.now.settings.columns painted row.old.items }
    ensures drawn { DrawsRuns line.now.settings painted (pen_with window.old row.old ticks.old) result.0 result.1
        (pen_with window.new row.new ticks.new) }
    ensures forward { painted ≤ result.0 }
    ensures kept { MovesOn (pen_with window.old row.old ticks.old) (pen_with window.new row.new ticks.new) }
{
    let mut pen = take_up(window, row, ticks);
    let reached = if line.has_long_runs {
        draw_long_pairs(&mut pen, painted, line)
    } else {
        draw_pairs(&mut pen, painted, line)
    };
    lay_down(pen, window, row, ticks);
    reached
}

/// Prepares a front for drawing in pairs, white next: if it ends in black, a change is stored at its end. Returns false,
/// and changes nothing, if there is no room for that.
#[inline(always)]
pub(crate) fn close_black_run(changes: &mut Vec<u32>, painted: u32) -> bool
    requires { AreChanges painted changes.old.items }
    ensures lawful { result ≡ true → AreChanges (painted + 1) changes.new.items }
    ensures even { result ≡ true → length changes.new.items % 2 ≡ 0 }
    ensures same { ShowSame painted changes.old.items changes.new.items }
    ensures left { result ≡ false → changes.new.items ≡ changes.old.items }
    ensures space { vec_capacity changes.new ≡ vec_capacity changes.old }
{
    if changes.len() % 2 == 0 {
        return true;
    }
    if changes.capacity() - changes.len() == 0 {
        return false;
    }
    push_change(changes, painted);
    true
}

/// Prepares a front for `context`: a change at the front's end is removed.
#[inline(always)]
pub(crate) fn drop_open_change(changes: &mut Vec<u32>, painted: u32)
    requires { AreChanges (painted + 1) changes.old.items }
    ensures lawful { AreChanges painted changes.new.items }
    ensures same { ShowSame painted changes.old.items changes.new.items }
    ensures space { vec_capacity changes.new ≡ vec_capacity changes.old }
    ensures few { vec_len changes.old ≤ vec_len changes.new + 1 }
{
    if changes.is_empty() {
        return;
    }
    let last = changes.take_last();
    if last == painted {
        return;
    }
    changes.push_reserved(last);
}
