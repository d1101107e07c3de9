// The level table of a log. This crate is of the wish layer, and the last that takes a wish apart. Engines know a wish
// only by what is promised here of a whole log, by the same `levels` as the level call, and by the greatest levels
// (`levels::parts`, `levels::part_max`). What decides a part is taken out of the list once; then one loop goes over the
// rows.
#![tactic(auto)]

ghost use Rattle.std.specs.Prelude.{◌≡◌, ℕ, ◌*◌, ◌<◌, ◌≤◌, pos, get_or, length, IfOk, MatchOption};
ghost use Rattle.std.specs.Fn.{FnOnceTakesAt, FnOnceReturnsAt};
ghost use Rattle.std.proofs.lemmas.List.Edits.{sets};
ghost use Rattle.limits.specs.Limits.{columns, max_values};
ghost use Rattle.refusal.specs.Refusal.{refusal_of};
ghost use Rattle.run_log.specs.Log.{row_at, row_count, log_refusal};
ghost use Rattle.level_table.specs.Table.{part_at, is_wide, plane_of, table_length, with_table, table_of};
ghost use Rattle.level_table.specs.Filled.{with_part, Room, LevelsBy};
ghost use Rattle.preference.specs.Names.{among};
ghost use Rattle.preference.specs.Parts.{max_levels};
ghost use Rattle.level_table.specs.Rule.{RuleOf, level_by, distance_level};

use constructor::{Layering, Target};
use preference::{Names, PartAt, PreferenceList};
use refusal::Refusal;

// What decides a part of a level vector: the values of a column, by their distance from a target or by
// layers; where the levels are pairs, which half it is.
#[derive(Clone, Copy)]
struct Rule {
    column: usize,
    target: Target,
    step: u32,
    layering: Layering,
    half: Option<usize>,
}

// The part that a value gets by its distance, in 16 bits.
fn level_by(target: Target, step: u32, half: Option<usize>, v: i32) -> u16
    ensures { result ≡ level_by target step half v }
{
    (target.part(step, half, v) % limits::LEVEL_COUNT) as u16
}

// The layer of a value among names, as a level in 16 bits.
fn named_layer(names: &Names, v: i32, others: u8) -> u16
    ensures { result ≡ among names.now.values names.now.layers names.now.count v others }
{
    u16::from(layers::layer_by(names, v, others))
}

// What decides part k of a level vector; nothing past the last part.
fn rule_of(list: &PreferenceList, k: usize) -> Option<Rule>
    ensures { MatchOption result (length (max_levels list.now) ≤ k) (λ r. RuleOf list.now k r) }
{
    let PartAt { place, half } = levels::part_at(*list, k);
    let preference = list.counted().get(place)?;
    let form = preference.constructor;
    Some(Rule {
        column: usize::from(preference.column),
        target: form.target(),
        step: form.scale().step,
        layering: form.layering(),
        half: form.half(half),
    })
}

// The value at a column of row r; 0 where the row has none.
fn value_at(log: &[i32], r: usize, column: usize) -> i32
    ensures { result ≡ get_or (row_at log.now r) column (pos 0) }
{
    run_log::row(log, r).get(column).copied().unwrap_or(0)
}

// Sets a column of a table, eight places to a row, to what `level_of` makes of the values in a column of a
// log. Log, column and table go through this and the two functions below, which end in this loop: a struct of
// the three would be taken apart again in it.
fn fill_column<F: Fn(i32) -> u16>(
    log: &[i32],
    column: usize,
    level_of: F,
    into: usize,
    table: &mut [u16],
)
    requires callable { F.IsAlwaysCallable level_of }
    requires room { Room log.now table.old into }
    ensures { (f : ℕ → ℕ) → LevelsBy (F.post level_of) log.now column f
        → table.new ≡ with_part f into (row_count log.now) table.old }
{
    for r in 0..run_log::row_count(log) {
        table[limits::COLUMNS * r + into] = level_of(value_at(log, r, column));
    }
}

// Sets a column of a table to the levels of a rule by distance. A function of its own: a closure in
// `fill_part` asks again at each row what the rule says, and a table takes half as many instructions more.
fn fill_distances(rule: Rule, log: &[i32], into: usize, table: &mut [u16])
    requires { Room log.now table.old into }
    ensures { (f : ℕ → ℕ) → LevelsBy (λ v x. x ≡ distance_level rule v) log.now rule.column f
        → table.new ≡ with_part f into (row_count log.now) table.old }
{
    let Rule {
        column,
        target,
        step,
        half,
        ..
    } = rule;
    fill_column(
        log,
        column,
        |v| level_by(target, step, half, v),
        into,
        table,
    )
}

// Sets a column of a table, eight places to a row, to part k of the level vectors of a log, in 16 bits; to 0
// past the last part.
fn fill_part(list: &PreferenceList, log: &[i32], k: usize, into: usize, table: &mut [u16])
    requires { Room log.now table.old into }
    ensures { table.new ≡ with_part (part_at list.now log.now k) into (row_count log.now) table.old }
{
    let Some(rule) = rule_of(list, k) else {
        return fill_column(log, 0, |_| 0, into, table);
    };
    match rule.layering {
        Layering::Numeric => fill_distances(rule, log, into, table),
        Layering::Layers { others, .. } => {
            let names = layers::names_of(*list, levels::part_at(*list, k).place);
            let layer_of = |v| named_layer(&names, v, others);
            fill_column(log, rule.column, layer_of, into, table)
        }
    }
}

// ---- the whole table

// How many numbers the table of a list and a log takes: a plane, or two where level vectors have more than eight
// parts. The second begins behind the longest first one.
#[tactic(auto, using(crate::specs::Laws::Table::table_wide, crate::specs::Laws::Table::table_narrow))]
pub fn table_length(list: PreferenceList, log: &[i32]) -> usize
    ensures { result ≡ table_length list log.now }
{
    let plane = limits::COLUMNS * run_log::row_count(log);
    if is_wide(list) {
        limits::MAX_VALUES + plane
    } else {
        plane
    }
}

// Whether level vectors have more than eight parts.
#[tactic(auto, unfolding(crate::specs::Table::is_wide))]
fn is_wide(list: PreferenceList) -> bool
    ensures { result ≡ is_wide list }
{
    limits::COLUMNS < levels::parts(list)
}

// Fills the front of a table with eight parts of the level vectors of a log, from part `first` on.
fn fill_plane(list: &PreferenceList, log: &[i32], first: usize, table: &mut [u16])
    requires { (first ≤ columns) × (columns * row_count log.now ≤ length table.old) }
    ensures { table.new ≡ sets table.old 0 (plane_of list.now log.now first) }
{
    for k in 0..limits::COLUMNS {
        fill_part(list, log, first + k, k, table);
    }
}

// Fills the front of a table with the levels of a log, part by part. A table that is too short is left as it is.
pub fn fill_table(list: PreferenceList, log: &[i32], table: &mut [u16])
    ensures { table.new ≡ with_table list log.now table.old }
{
    if table.len() < table_length(list, log) {
        return;
    }
    fill_plane(&list, log, 0, table);
    if is_wide(list) {
        fill_plane(
            &list,
            log,
            limits::COLUMNS,
            &mut table[limits::MAX_VALUES..],
        );
    }
}

// What `use_table` makes of the level table of a log, in room for N numbers.
fn lend_room<const N: usize, R, F: FnOnce(&[u16]) -> R>(
    list: PreferenceList,
    log: &[i32],
    length: usize,
    use_table: F,
) -> R
    requires table_length { (length ≡ table_length list log.now) × (length ≤ N) × (N ≤ 2 * max_values) }
    requires callable { FnOnceTakesAt F.FnOnce use_table (table_of list log.now) }
    ensures { FnOnceReturnsAt F.FnOnce use_table (table_of list log.now) result }
{
    let mut table = [0u16; N];
    fill_table(list, log, &mut table[..length]);
    use_table(&table[..length])
}

// The same of every accepted log, or 10. Room for a second plane is made only where there is one.
pub fn lend_table<R, F: FnOnce(&[u16]) -> R>(
    list: PreferenceList,
    log: &[i32],
    use_table: F,
) -> Result<R, Refusal>
    requires callable { log_refusal log.now ≡ 0 → FnOnceTakesAt F.FnOnce use_table (table_of list log.now) }
    ensures refused { refusal_of result ≡ log_refusal log.now }
    ensures used { IfOk result (λ r. FnOnceReturnsAt F.FnOnce use_table (table_of list log.now) r) }
{
    run_log::check(log)?;
    let length = table_length(list, log);
    if length <= limits::MAX_VALUES {
        return Ok(lend_room::<{ limits::MAX_VALUES }, R, F>(list, log, length, use_table));
    }
    Ok(lend_room::<{ limits::MAX_TABLE }, R, F>(list, log, length, use_table))
}
