// The levels of rows and the heights of columns: the top of a row over a set of columns, the tight entries, and how levels and heights are
// raised.
ghost use Rattle.std.specs.Prelude.{ℕ, ◌+◌, ◌*◌, ◌<◌, ◌≤◌, ◌≡◌, ◌≢◌, true, cond, List, length, get_or};
ghost use Rattle.limits.specs.Limits.{most_columns, most_rows};
ghost use Rattle.counting.specs.Sets.{◌∈◌};
ghost use Rattle.columns.specs.Columns.{members, within};
ghost use Rattle.columns.specs.ColumnSets.{whole, row_numbers};
ghost use Rattle.rank.specs.Totals.{total};
ghost use Rattle.degree.specs.States.{ReadyModel};
ghost use Rattle.degree.specs.Code.{Top, Lines, ParameterRow, LineTop, Tops, Weighed, touches, Rise, LevelsRaised, HeightsRaised, TightRow, AtLevel, TightConstants, TightParameters, Low};

use crate::state::{Bounds, PoweredModel};
use columns::{ColumnSet, MOST_WORDS};
use limits::MOST_COLUMNS;

// The weights of columns: their powers and heights on the set, and 0 elsewhere.
pub fn weights(set: ColumnSet, powers: &[u8], heights: &[u16]) -> [u16; MOST_COLUMNS]
    requires { (x : ℕ) → x ∈ members (whole set) → (x < most_columns) × (x < length powers.now) × (x < length heights.now) × (get_or heights.now x 0 ≤ 60000) }
    ensures { (n : ℕ) → Weighed n (members (whole set)) powers.now heights.now result }
{
    let mut out = [0u16; MOST_COLUMNS];
    for x in set {
        out[x] = u16::from(powers[x]) + heights[x];
    }
    out
}

// The largest weight at which a row of constants is not zero, or 0.
fn constant_top(row: &[u16], weights: &[u16]) -> u16
    requires { length row.now ≤ length weights.now }
    ensures { Top (length row.now) (λ x. get_or row.now x 0 ≢ 0) (λ x. get_or weights.now x 0) result }
{
    let mut top: u16 = 0;
    for (constant, weight) in row.iter().zip(weights) {
        let here = if *constant != 0 { *weight } else { 0 };
        top = top.max(here);
    }
    top
}

// The largest sum of power and height in a row of parameters, or 0.
pub fn parameter_top(row: ColumnSet, powers: &[u8], from: usize, heights: &[u16]) -> u16
    requires { (n : ℕ) × ParameterRow n (whole row) from powers.now heights.now }
    ensures { (n : ℕ) → ParameterRow n (whole row) from powers.now heights.now → Top n (λ x. x ∈ members (whole row)) (λ x. get_or powers.now (from + x) 0 + get_or heights.now x 0) result }
{
    let mut top: u16 = 0;
    for x in row {
        top = top.max(u16::from(powers[from + x]) + heights[x]);
    }
    top
}

// The top of row q, of both kinds, over the set.
fn line_top(
    model: &PoweredModel<'_>,
    constants: &[u16],
    weights: &[u16],
    heights: &[u16],
    set: ColumnSet,
    q: usize,
) -> u16
    requires { Lines model.now.n model.now.a model.now.b constants.now (row_numbers model.now.parameters.now) model.now.powers.parameters.now weights.now heights.now × (q < model.now.a + model.now.b) }
    ensures { LineTop model.now.n model.now.a constants.now (row_numbers model.now.parameters.now) model.now.powers.parameters.now (members (whole set)) weights.now heights.now q result }
{
    if q < model.a {
        let from = q * model.n;
        return constant_top(&constants[from..from + model.n], weights);
    }
    let r = q - model.a;
    let row = columns::row(model.parameters, r).intersection(set);
    parameter_top(row, model.powers.parameters, r * model.n, heights)
}

// The tops of all rows over the set.
pub fn tops(
    model: &PoweredModel<'_>,
    constants: &[u16],
    weights: &[u16],
    heights: &[u16],
    set: ColumnSet,
) -> [u16; MOST_COLUMNS]
    requires { Lines model.now.n model.now.a model.now.b constants.now (row_numbers model.now.parameters.now) model.now.powers.parameters.now weights.now heights.now }
    ensures { Tops model.now.n model.now.a model.now.b constants.now (row_numbers model.now.parameters.now) model.now.powers.parameters.now (members (whole set)) weights.now heights.now result }
{
    let mut out = [0u16; MOST_COLUMNS];
    for q in 0..model.a + model.b {
        out[q] = line_top(model, constants, weights, heights, set, q);
    }
    out
}

// How far a row of this level lets the heights be raised on the set over which it has this top.
fn room(level: u16, top: u16) -> u16
    ensures { (1 ≤ result) × (0 < top → top < level → top + result ≤ level) }
{
    if top == 0 || top >= level {
        return u16::MAX;
    }
    level - top
}

// How far all rows let them be raised.
pub fn rise(levels: &[u16], tops: &[u16]) -> u16
    ensures { (lines : ℕ) → Rise lines levels.now tops.now result }
{
    let mut least = u16::MAX;
    for (level, top) in levels.iter().zip(tops) {
        least = least.min(room(*level, *top));
    }
    least
}

// The level of a row with this top over the set, when those that touch the set are raised.
#[tactic(auto, unfolding(crate::specs::Code::touches))]
fn raised_level(level: u16, top: u16, rise: u16) -> u16
    requires { level + rise < 65536 }
    ensures { result ≡ cond (touches level top) (level + rise) level }
{
    if top != 0 && top == level {
        return level + rise;
    }
    level
}

// The levels of the rows that touch the set are raised.
pub fn raise_levels(levels: &mut [u16], tops: &[u16], rise: u16, lines: usize)
    requires { (lines ≤ length levels.old) × (lines ≤ length tops.now) × ((q : ℕ) → q < lines → get_or levels.old q 0 + rise < 65536) }
    ensures { LevelsRaised lines tops.now rise levels.old levels.new }
{
    for q in 0..lines {
        levels[q] = raised_level(levels[q], tops[q], rise);
    }
}

// The heights on the set are raised.
pub fn raise_heights(heights: &mut [u16], set: ColumnSet, rise: u16)
    requires { (x : ℕ) → x ∈ members (whole set) → (x < length heights.old) × (get_or heights.old x 0 + rise < 65536) }
    ensures { (n : ℕ) → HeightsRaised n (members (whole set)) rise heights.old heights.new }
{
    for x in set {
        heights[x] = heights[x] + rise;
    }
}

// The tight entries of a row of constants.
fn tight_row(out: &mut [u16], constants: &[u16], weights: &[u16], from: usize, n: usize, level: u16)
    requires { (from + n ≤ length out.old) × (from + n ≤ length constants.now) × (n ≤ length weights.now) }
    ensures { TightRow n from level constants.now weights.now out.old out.new }
{
    for x in 0..n {
        let i = from + x;
        let v = constants[i];
        out[i] = if weights[x] == level { v } else { 0 };
    }
}

// The tight entries of the constants, which go into the area. It is lent, since an answer of its size would stand twice on the stack.
pub fn tight_constants(
    out: &mut [u16],
    model: &PoweredModel<'_>,
    constants: &[u16],
    weights: &[u16],
    levels: &[u16],
)
    requires { (model.now.n ≤ most_columns) × (model.now.a ≤ most_rows) × (model.now.a * model.now.n ≤ length out.old) × (model.now.a * model.now.n ≤ length constants.now) × (model.now.n ≤ length weights.now) × (model.now.a ≤ length levels.now) }
    ensures { (length out.new ≡ length out.old) × TightConstants model.now.n model.now.a constants.now weights.now levels.now out.new }
{
    for h in 0..model.a {
        tight_row(out, constants, weights, h * model.n, model.n, levels[h]);
    }
}

// The tight entries of a row of parameters.
fn at_level(row: ColumnSet, powers: &[u8], from: usize, heights: &[u16], level: u16) -> ColumnSet
    requires { (n : ℕ) × ParameterRow n (whole row) from powers.now heights.now }
    ensures { (n : ℕ) → AtLevel n from level powers.now heights.now (members (whole row)) (members (whole result)) }
{
    let mut kept = row;
    for x in row {
        if u16::from(powers[from + x]) + heights[x] != level {
            kept = kept.without(x);
        }
    }
    kept
}

// The tight entries of the parameters.
pub fn tight_parameters(model: &PoweredModel<'_>, bounds: &Bounds) -> [u64; MOST_WORDS]
    requires { (model.now.n ≤ most_columns) × (model.now.b ≤ most_rows) × (model.now.a + model.now.b ≤ most_columns) × ((r : ℕ) → r < model.now.b → within model.now.n (get_or (row_numbers model.now.parameters.now) r 0) ≡ true) × (model.now.b * model.now.n ≤ length model.now.powers.parameters.now) × ((x : ℕ) → x < model.now.n → get_or bounds.now.heights x 0 ≤ 60000) }
    ensures { TightParameters model.now.n model.now.a model.now.b (row_numbers model.now.parameters.now) model.now.powers.parameters.now bounds.now.heights bounds.now.levels (row_numbers result) }
{
    let mut out = [0u64; MOST_WORDS];
    for r in 0..model.b {
        let row = at_level(
            columns::row(model.parameters, r),
            model.powers.parameters,
            r * model.n,
            &bounds.heights,
            bounds.levels[model.a + r],
        );
        columns::put_row(&mut out, r, row);
    }
    out
}

// The sum of the first k numbers,
pub fn sum(numbers: &[u16], k: usize) -> u32
    requires { (k ≤ length numbers.now) × (k ≤ most_columns) × ((i : ℕ) → i < k → get_or numbers.now i 0 ≤ 65535) }
    ensures { result ≡ total k (λ i. get_or numbers.now i 0) }
{
    numbers[..k].iter().map(|number| u32::from(*number)).sum()
}

// and of the first k powers.
pub fn sum_powers(powers: &[u8], k: usize) -> u32
    requires { (k ≤ length powers.now) × (k ≤ most_columns) × ((i : ℕ) → i < k → get_or powers.now i 0 ≤ 15) }
    ensures { result ≡ total k (λ i. get_or powers.now i 0) }
{
    powers[..k].iter().map(|power| u32::from(*power)).sum()
}

// The height at which a power stands at 16.
fn lower(height: u16, power: u8) -> u16
    requires { (power ≤ 15) × (1 ≤ height) × (height ≤ 16) }
    ensures { (1 ≤ result) × (result ≤ 16) }
{
    height.min(16 - u16::from(power))
}

// The heights at which no power of the row stands above 16.
fn lower_row(heights: &mut [u16], row: ColumnSet, powers: &[u8], from: usize)
    requires { (length heights.old ≡ most_columns) × ((x : ℕ) → x ∈ members (whole row) → (x < most_columns) × (from + x < length powers.now) × (get_or powers.now (from + x) 0 ≤ 15)) × Low most_columns heights.old }
    ensures { (length heights.new ≡ length heights.old) × Low most_columns heights.new }
{
    for x in row {
        heights[x] = lower(heights[x], powers[from + x]);
    }
}

// The first heights: the largest with which no power of a column, or of a parameter there, stands above 16.
pub fn first_heights(model: &PoweredModel<'_>) -> [u16; MOST_COLUMNS]
    requires { (cs : List ℕ) × ReadyModel model.now cs }
    ensures { Low model.now.n result }
{
    let mut out = [16u16; MOST_COLUMNS];
    for r in 0..model.b {
        lower_row(
            &mut out,
            columns::row(model.parameters, r),
            model.powers.parameters,
            r * model.n,
        );
    }
    lower_row(&mut out, ColumnSet::below(model.n), model.powers.columns, 0);
    out
}
