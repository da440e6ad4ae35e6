//! Estimates, figures and their text.

ghost use Rattle.std.specs.Prelude.{◌≡◌, ◌≤◌, ◌<◌, length};
ghost use Rattle.std.specs.List.{All};
ghost use Rattle.ball_model.specs.declared.plan.TheConstants.{GREATEST_RANK};

use figures::{
    Estimator, Figures, Tally, are_last, closeness, estimate, figures_within, final_figures,
    fixed6, gain, lin, moved_weight, weight,
};
use registers::Rows;
use std::alloc::Global;
use std::ops::Range;
use std::test::Fail;
use std::thread::Threads;

// The estimate of a row, if it is one of 2^log2m ranks.
fn estimate_in(log2m: u8, row: &[u8]) -> Option<u64> {
    let is_size = (4..=10).contains(&log2m);
    if is_size && row.len() == 1 << log2m && row.iter().all(|register| *register <= 33) {
        Some(estimate(log2m, row))
    } else {
        None
    }
}

// The balls of a path of three vertices under seed 0: vertex 0 has rank 3 in register 14, vertex 1 rank 1 in
// register 6, vertex 2 rank 2 in register 0, vertices 3 and 4 rank 1 in registers 15 and 1.
#[test]
fn small_sets(rt: HostRuntime) {
    let sets = [
        ([0, 0, 0, 0, 0, 0, 0, 0, 0, 0, 0, 0, 0, 0, 3, 0], 11_390_942),
        ([0, 0, 0, 0, 0, 0, 1, 0, 0, 0, 0, 0, 0, 0, 0, 0], 11_115_354),
        ([2, 0, 0, 0, 0, 0, 0, 0, 0, 0, 0, 0, 0, 0, 0, 0], 11_297_573),
        ([0, 0, 0, 0, 0, 0, 0, 0, 0, 0, 0, 0, 0, 0, 0, 1], 11_115_354),
        ([0, 1, 0, 0, 0, 0, 0, 0, 0, 0, 0, 0, 0, 0, 0, 0], 11_115_354),
        ([0, 0, 0, 0, 0, 0, 1, 0, 0, 0, 0, 0, 0, 0, 3, 0], 11_780_376),
        ([2, 0, 0, 0, 0, 0, 1, 0, 0, 0, 0, 0, 0, 0, 0, 0], 11_680_542),
        ([2, 0, 0, 0, 0, 0, 1, 0, 0, 0, 0, 0, 0, 0, 3, 0], 12_417_153),
    ];
    let first_wrong = sets
        .iter()
        .position(|(row, told)| estimate_in(4, row) != Some(*told));
    assert_eq!(rt; first_wrong, None);
}

#[test]
fn one_vertex_among_128_registers(rt: HostRuntime) {
    let mut row = [0u8; 128];
    row[113] = 4;
    assert_eq!(rt; estimate_in(7, &row), Some(92_230_136));
}

// Of a counter that becomes another one, if both are of 2^log2m ranks: its weight and its raw estimate, before and
// after.
fn carried(alloc: Global, log2m: u8, old: &[u8], new: &[u8]) -> Option<[u64; 4]> {
    let is_size = (4..=10).contains(&log2m);
    let are_ranks = old.iter().all(|r| *r <= 33) && new.iter().all(|r| *r <= 33);
    if is_size && are_ranks && old.len() == 1 << log2m && new.len() == 1 << log2m {
        let estimator = Estimator::raw(alloc, log2m);
        let before = weight(log2m, old);
        let after = moved_weight(log2m, before, old, new);
        let first = estimator.estimate_of(before);
        Some([before, first, after, estimator.estimate_of(after)])
    } else {
        None
    }
}

// 128 * (2^33 + 2^50), and 127 * (2^33 + 2^50) + 2^29 once one of 128 registers is 4.
#[test]
fn a_weight_that_is_carried_forward(rt: HostRuntime) {
    let mut row = [0u8; 128];
    row[113] = 4;
    let told = [
        144_116_287_587_483_648,
        91_554_623,
        142_990_379_627_577_344,
        92_230_136,
    ];
    assert_eq!(rt; carried(rt.alloc(), 7, &[0; 128], &row), Some(told));
}

// The estimates of 2^log2m registers that are all 0, and all 33, are these.
fn are_bounds(log2m: u8, least: u64, greatest: u64) -> bool {
    let width = 1usize << log2m.min(10);
    width <= 1024
        && estimate_in(log2m, &[0; 1024][..width]) == Some(least)
        && estimate_in(log2m, &[33; 1024][..width]) == Some(greatest)
}

#[test]
fn least_and_greatest_estimates(rt: HostRuntime) {
    let bounds = [
        (4, 10_768_000, 92_496_415_686_656_000),
        (5, 22_304_000, 191_589_901_139_968_000),
        (6, 45_376_000, 389_776_872_046_592_000),
        (7, 91_554_623, 786_448_224_348_639_874),
        (8, 183_877_783, 1_579_498_136_381_393_834),
        (9, 368_528_954, 3_165_639_610_296_210_490),
        (10, 737_833_736, 6_337_943_536_492_970_326),
    ];
    let first_wrong = bounds.iter().position(|(log2m, least, greatest)| !are_bounds(
        *log2m, *least, *greatest,
    ));
    assert_eq!(rt; first_wrong, None);
}

fn numbers_of(tally: Tally) -> (u64, u64, u128) {
    (tally.last, tally.harm, tally.dist)
}

// The numbers of a vertex after two others on a path, as it starts and after each of three steps.
fn numbers_of_steps() -> [(u64, u64, u128); 4] {
    let mut tally = Tally::start(11_297_573);
    let alone = numbers_of(tally);
    tally.step(1, 11_680_542);
    let near = numbers_of(tally);
    tally.step(2, 12_417_153);
    let far = numbers_of(tally);
    tally.step(3, 12_417_153);
    [alone, near, far, numbers_of(tally)]
}

// They are these, since the gains are 0.382969 at distance 1 and 0.736611 at distance 2.
const STEPS: [(u64, u64, u128); 4] = [
    (11_297_573, 0, 0),
    (11_680_542, 382_969, 382_969),
    (12_417_153, 751_274, 1_856_191),
    (12_417_153, 751_274, 1_856_191),
];

#[test]
fn figures_of_a_vertex(rt: HostRuntime) {
    assert_eq!(rt; numbers_of_steps(), STEPS);
}

#[test]
fn centralities_of_a_vertex(rt: HostRuntime) {
    assert_eq!(rt;
        (closeness(1_856_191), lin(12_417_153, 1_856_191)),
        (538_737, 83_065_637)
    );
}

#[test]
fn greatest_step(rt: HostRuntime) {
    let mut tally = Tally::start(0);
    tally.step(4096, 9_223_372_036_854_775_807);
    assert_eq!(rt;
        (tally.harm, tally.dist),
        (2_251_799_813_685_247, 37_778_931_862_957_161_705_472)
    );
}

// The first sum of distances of a table that has another closeness.
fn first_other_closeness() -> Option<u128> {
    let table = [
        (0, 0),
        (1, 1_000_000_000_000),
        (665_022, 1_503_709),
        (1_000_000_000_001, 0),
    ];
    let wrong = table.iter().find(|(dist, told)| closeness(*dist) != *told);
    wrong.map(|(dist, _)| *dist)
}

// The first estimate and sum of distances of a table that have another index.
fn first_other_index() -> Option<(u64, u128)> {
    let table = [
        (11_390_942, 0, 1_000_000),
        (11_780_376, 665_022, 208_680_703),
        (0, 5, 0),
        (3, 2, 4),
        (
            u64::MAX,
            1,
            340_282_366_920_938_463_426_481_119_284_349_108_225,
        ),
    ];
    let wrong = table
        .iter()
        .find(|(last, dist, told)| lin(*last, *dist) != *told);
    wrong.map(|(last, dist, _)| (*last, *dist))
}

#[test]
fn closenesses(rt: HostRuntime) {
    assert_eq!(rt; first_other_closeness(), None);
}

#[test]
fn indices_of_lin(rt: HostRuntime) {
    assert_eq!(rt; first_other_index(), None);
}

// The text of a number of millionths is this one.
fn is_text(x: u128, told: &str) -> bool {
    let mut buffer = [b'x'; 48];
    fixed6(x, &mut buffer) == told
}

// The first number of a table that has another text.
fn first_other_text() -> Option<u128> {
    let table = [
        (0, "0.000000"),
        (7, "0.000007"),
        (999_999, "0.999999"),
        (1_000_000, "1.000000"),
        (208_680_703, "208.680703"),
        (6_337_943_536_492_970_326, "6337943536492.970326"),
        (u128::MAX, "340282366920938463463374607431768.211455"),
    ];
    let wrong = table.iter().find(|(x, told)| !is_text(*x, told));
    wrong.map(|(x, _)| *x)
}

#[test]
fn fixed_point_text(rt: HostRuntime) {
    assert_eq!(rt; first_other_text(), None);
}

// The figures are these.
fn are_told(figures: &[Figures], wanted: &[(u64, u64, u64, u128, u32)]) -> bool {
    figures.len() == wanted.len()
        && figures.iter().zip(wanted).all(|(f, told)| (
            f.estimate,
            f.harmonic,
            f.closeness,
            f.lin,
            f.empty,
        ) == *told)
}

// The figures of the vertices at some places are these, by two threads at most.
fn figures_are<H: AllocGlobal + Threads + Sync>(
    rt: &H,
    weights: &[u64],
    tallies: &[Tally],
    places: Range<usize>,
    wanted: &[(u64, u64, u64, u128, u32)],
) -> Result<bool, Fail>
    requires count { length tallies.now ≡ length weights.now }
{
    let figures = figures_within(rt, weights, tallies, places, 2)?;
    Ok(are_told(&figures, wanted))
}

// The figures of all vertices, of raw estimates, are these.
fn raw_figures_are<H: AllocGlobal + Threads + Sync>(
    rt: &H,
    rows: &Rows,
    tallies: &[Tally],
    wanted: &[(u64, u64, u64, u128, u32)],
) -> Result<bool, Fail>
    requires count { length tallies.now ≡ length rows.now.rows }
    requires width { rows.now.width ≡ 16 }
    requires ranks { All (λ row. All (λ r. r ≤ GREATEST_RANK) row) rows.now.rows }
{
    let figures = final_figures(rt, rt.alloc(), 4, rows, tallies)?;
    Ok(are_told(&figures, wanted))
}

// The weight of one of the rows.
fn weight_at(rows: &Rows, i: usize) -> u64
    requires row { i < length rows.now.rows }
    requires width { rows.now.width ≡ 16 }
    requires ranks { All (λ row. All (λ r. r ≤ GREATEST_RANK) row) rows.now.rows }
{
    weight(4, rows.row(i))
}

// The tallies of three vertices: the last one has gained.
fn three_tallies() -> [Tally; 3] {
    let mut tally = Tally::start(11_297_573);
    tally.step(1, 11_680_542);
    [Tally::start(0), Tally::start(5), tally]
}

// The figures of three vertices with those tallies, whose rows differ too; the estimates are the tallies'.
static THREE: [(u64, u64, u64, u128, u32); 3] = [
    (0, 0, 0, 1_000_000, 16),
    (5, 0, 0, 1_000_000, 15),
    (11_680_542, 382_969, 2_611_177, 356_256_149, 14),
];

// The figures of these vertices with the raw estimates of their rows.
static RAW_THREE: [(u64, u64, u64, u128, u32); 3] = [
    (10_768_000, 0, 0, 1_000_000, 16),
    (11_390_942, 0, 0, 1_000_000, 15),
    (11_680_542, 382_969, 2_611_177, 356_256_149, 14),
];

// Whether the raw figures of three vertices, their figures, and those of all but the first, are those of the tables.
fn rows_are_told<H: AllocGlobal + Threads + Sync>(rt: &H, rows: &Rows) -> Result<[bool; 3], Fail>
    requires count { length rows.now.rows ≡ 3 }
    requires width { rows.now.width ≡ 16 }
    requires ranks { All (λ row. All (λ r. r ≤ GREATEST_RANK) row) rows.now.rows }
{
    let tallies = three_tallies();
    let weights = [weight_at(rows, 0), weight_at(rows, 1), weight_at(rows, 2)];
    let raw = raw_figures_are(rt, rows, &tallies, &RAW_THREE)?;
    let all = figures_are(rt, &weights, &tallies, 0..3, &THREE)?;
    let later = figures_are(rt, &weights, &tallies, 1..9, &THREE[1..])?;
    Ok([raw, all, later])
}

// Whether the figures of rows of no, one and two registers above 0 are those of the tables.
fn three_are_told<H: AllocGlobal + Threads + Sync>(rt: &H) -> Result<[bool; 3], Fail> {
    let mut rows = Rows::fixed(rt.alloc(), 3, 16)?;
    rows.raise_one(1, 14, 3);
    rows.raise_one(2, 0, 2);
    rows.raise_one(2, 6, 1);
    rows_are_told(rt, &rows)
}

#[test]
fn figures_of_vertices(rt: HostRuntime) -> Result<(), Fail> {
    assert_eq!(rt; three_are_told(&rt)?, [true; 3]);
    Ok(())
}

// Whether these are the last estimates of three rows, raw or corrected.
fn are_lasts(rows: &Rows, is_corrected: bool, lasts: [u64; 3]) -> bool
    requires count { length rows.now.rows ≡ 3 }
    requires width { rows.now.width ≡ 16 }
    requires ranks { All (λ row. All (λ r. r ≤ GREATEST_RANK) row) rows.now.rows }
{
    let tallies = [
        Tally::start(lasts[0]),
        Tally::start(lasts[1]),
        Tally::start(lasts[2]),
    ];
    are_last(4, is_corrected, rows, &tallies)
}

// Whether raw and corrected estimates are those of rows of no, one and two registers above 0, one of them is when it is
// one too many, and raw ones are corrected ones.
fn lasts_of_three<H: AllocGlobal>(rt: &H) -> Result<[bool; 4], Fail> {
    let mut rows = Rows::fixed(rt.alloc(), 3, 16)?;
    rows.raise_one(1, 14, 3);
    rows.raise_one(2, 0, 2);
    rows.raise_one(2, 6, 1);
    Ok([
        are_lasts(&rows, false, [10_768_000, 11_390_942, 11_680_542]),
        are_lasts(&rows, true, [0, 1_000_000, 2_066_666]),
        are_lasts(&rows, false, [10_768_000, 11_390_942, 11_680_543]),
        are_lasts(&rows, true, [10_768_000, 11_390_942, 11_680_542]),
    ])
}

#[test]
fn lasts_of_rows(rt: HostRuntime) -> Result<(), Fail> {
    let told = lasts_of_three(&rt)?;
    assert_eq!(rt; told, [true, true, false, false]);
    Ok(())
}

// How many figures no vertices have.
fn count_of_none<H: AllocGlobal + Threads + Sync>(rt: &H) -> Result<usize, Fail> {
    let rows = Rows::fixed(rt.alloc(), 0, 16)?;
    Ok(final_figures(rt, rt.alloc(), 4, &rows, &[])?.len())
}

#[test]
fn figures_of_no_vertices(rt: HostRuntime) -> Result<(), Fail> {
    let count = count_of_none(&rt)?;
    assert_eq!(rt; count, 0);
    Ok(())
}

// Tallies of vertices that gained 0, 1, 2, .. at superstep 1.
fn gaining<H: AllocGlobal>(rt: &H, count: u32) -> Result<Vec<Tally>, Fail> {
    let mut tallies = Vec::new(rt.alloc());
    for k in 0..count {
        let mut tally = Tally::start(0);
        tally.step(1, u64::from(k));
        tallies.push(tally)?;
    }
    Ok(tallies)
}

// 5,000 figures that gained 0, 1, 2, ..
fn are_in_order(figures: &[Figures]) -> bool {
    figures.len() == 5000
        && figures
            .iter()
            .enumerate()
            .all(|(i, f)| f.harmonic == i as u64)
}

// The figures of vertices come in the order of their tallies, by at most that many threads.
fn come_by<H: AllocGlobal + Threads + Sync>(
    rt: &H,
    tallies: &[Tally],
    threads: usize,
) -> Result<bool, Fail> {
    let weights = vec![in rt.alloc(); 1u64 << 54; tallies.len()]?;
    let all = figures_within(rt, &weights, tallies, 0..5000, threads)?;
    Ok(are_in_order(&all))
}

// The figures of vertices come in the order of their tallies, of which there is one for each: by all processors, by one
// thread and by two of three.
fn tallies_come_in_order<H: AllocGlobal + Threads + Sync>(
    rt: &H,
    rows: &Rows,
    tallies: &[Tally],
) -> Result<bool, Fail>
    requires width { rows.now.width ≡ 16 }
    requires ranks { All (λ row. All (λ r. r ≤ GREATEST_RANK) row) rows.now.rows }
{
    if tallies.len() != rows.len() {
        return Err(Fail::new("a tally for each row"));
    }
    let all = final_figures(rt, rt.alloc(), 4, rows, tallies)?;
    let alone = come_by(rt, tallies, 1)?;
    let shared = come_by(rt, tallies, 3)?;
    Ok(are_in_order(&all) && alone && shared)
}

// The figures of vertices that gained 0, 1, 2, .. come in that order.
fn come_in_order<H: AllocGlobal + Threads + Sync>(rt: &H, rows: &Rows) -> Result<bool, Fail>
    requires width { rows.now.width ≡ 16 }
    requires ranks { All (λ row. All (λ r. r ≤ GREATEST_RANK) row) rows.now.rows }
{
    let tallies = gaining(rt, 5000)?;
    tallies_come_in_order(rt, rows, &tallies)
}

// As many vertices as several threads are started for come back in order.
#[test]
fn figures_of_many_vertices(rt: HostRuntime) -> Result<(), Fail> {
    let rows = Rows::fixed(rt.alloc(), 5000, 16)?;
    let in_order = come_in_order(&rt, &rows)?;
    assert!(rt; in_order);
    Ok(())
}

// 4,097 totals: one that rises at superstep 1, stays, and rises to the greatest number at superstep 4,096.
fn many_totals<H: AllocGlobal>(rt: &H) -> Result<Vec<u128>, Fail> {
    let mut totals = Vec::new(rt.alloc());
    for i in 0..=4096 {
        totals.push(match i {
            0 => 0,
            4096 => u128::MAX,
            _ => 1 << 20,
        })?;
    }
    Ok(totals)
}

// Each term is rounded down, and a total that falls adds nothing.
#[test]
fn gains(rt: HostRuntime) {
    let gains = [
        gain(&[]),
        gain(&[7]),
        gain(&[0, 3, 9, 9, 73]),
        gain(&[9, 5, 13]),
        gain(&[0, u128::MAX, u128::MAX]),
    ];
    assert_eq!(rt; gains, [0, 0, 6, 2, u128::MAX / 2]);
}

// A rise divided by 2^128 or more is 0.
#[test]
fn gain_of_many_totals(rt: HostRuntime) -> Result<(), Fail> {
    let totals = many_totals(&rt)?;
    assert_eq!(rt; (totals.len(), gain(&totals)), (4097, 1 << 19));
    Ok(())
}

// The corrected estimates of 16 registers: no, one, two, eight and sixteen of them above 0; and sixteen that are 4,
// whose raw estimate is above 40.
fn corrected_ones<H: AllocGlobal>(rt: &H) -> Result<[u64; 6], Fail> {
    let estimator = Estimator::corrected(rt.alloc(), 4)?;
    Ok([
        estimator.estimate(&[0; 16]),
        estimator.estimate(&[0, 0, 0, 0, 0, 0, 0, 0, 0, 0, 0, 0, 0, 9, 0, 0]),
        estimator.estimate(&[0, 0, 0, 0, 0, 0, 0, 0, 0, 0, 0, 0, 0, 1, 0, 2]),
        estimator.estimate(&[1, 1, 1, 1, 1, 1, 1, 1, 0, 0, 0, 0, 0, 0, 0, 0]),
        estimator.estimate(&[1; 16]),
        estimator.estimate(&[4; 16]),
    ])
}

// By hand: 0; 16/16; and 16/15; down to 16/9; 3.38 for each register is cut at two and a half; and the raw one.
#[test]
fn corrected_small_sets(rt: HostRuntime) -> Result<(), Fail> {
    assert_eq!(rt;
        corrected_ones(&rt)?,
        [0, 1_000_000, 2_066_666, 10_605_947, 40_000_000, 172_288_000]
    );
    Ok(())
}

// harm may be last and dist 4096 times last, and neither may be one more.
#[test]
fn figures_that_a_run_can_have(rt: HostRuntime) {
    let found = [
        Tally::of(3, 3, 4096 * 3).is_some(),
        Tally::of(3, 4, 0).is_some(),
        Tally::of(3, 0, 4096 * 3 + 1).is_some(),
        Tally::of(0, 0, 0).is_some(),
        Tally::of(u64::MAX, u64::MAX, 4096 * u128::from(u64::MAX)).is_some(),
    ];
    assert_eq!(rt; found, [true, false, false, true, true]);
}
