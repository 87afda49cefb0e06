//! The worked examples, the limit, implied constraints, and small graphs against a plain search.
ghost use Rattle.std.specs.Prelude.{◌≡◌, ◌<◌, Some, None};
ghost use Rattle.lego_level.specs.Graphs.{IsVariableBelow};

use lego_level::{Constraint, Graph, GraphFault};
use lego_term::Level;
use std::alloc::Global;
use std::test::Fail;

fn fixed(plus: u32) -> Level
    ensures { result ≡ record { base = None; plus = plus } }
{
    Level { base: None, plus }
}

fn variable(number: u32, plus: u32) -> Level
    ensures { result ≡ record { base = Some number; plus = plus } }
{
    Level {
        base: Some(number),
        plus,
    }
}

fn at_most(low: Level, high: Level) -> Constraint
    ensures { result ≡ record { low = low; high = high; place = None } }
{
    Constraint {
        low,
        high,
        place: None,
    }
}

/// What `extend` is to answer.
#[derive(Debug, Clone, Copy)]
enum Want<'a> {
    Accepted,
    Cycle(&'a [Constraint]),
    TooBig(Constraint, u64),
}

/// Whether the answer is the wanted one.
fn meets(outcome: &Result<(), GraphFault>, want: Want<'_>) -> bool {
    match (outcome, want) {
        (Ok(()), Want::Accepted) => true,
        (Err(GraphFault::Cycle(cycle)), Want::Cycle(constraints)) => cycle.items() == constraints,
        (Err(GraphFault::LevelTooBig { constraint, needed }), Want::TooBig(by, value)) => {
            *constraint == by && *needed == value
        }
        _ => false,
    }
}

/// What `extend` answers of `added` where `held` is held.
fn outcome_of(alloc: Global, held: &[Constraint], added: &[Constraint]) -> Result<(), GraphFault> {
    let mut graph = Graph::new(alloc);
    graph.extend(held)?;
    graph.extend(added)
}

#[test]
fn a_chain_has_least_values(rt: HostRuntime) -> Result<(), Fail> {
    let alloc = rt.alloc();
    let mut graph = Graph::new(alloc);
    let first = at_most(variable(0, 1), variable(1, 0));
    let second = at_most(variable(1, 1), variable(2, 0));
    let outcome = graph.extend(&[first, second]);
    assert!(rt; outcome.is_ok());
    let values = graph.least(3)?;
    assert!(rt; values.as_slice() == [0, 1, 2].as_slice());
    assert!(rt; graph.constraints() == [first, second].as_slice());
    Ok(())
}

#[test]
fn answers_to_single_constraints(rt: HostRuntime) {
    let alloc = rt.alloc();
    let rises = at_most(variable(0, 1), variable(1, 0));
    let falls = at_most(variable(1, 0), variable(0, 0));
    let even = at_most(variable(0, 0), variable(1, 0));
    let low = at_most(fixed(3), variable(0, 0));
    let high = at_most(variable(0, 0), fixed(2));
    let wrong = at_most(fixed(3), fixed(2));
    let far = at_most(fixed(1_000_000), variable(0, 0));
    let beyond = at_most(fixed(1_000_001), variable(0, 0));
    let idle = at_most(variable(0, 0), variable(0, 0));
    let negative = at_most(variable(0, 1), fixed(0));
    let implied = at_most(fixed(0), variable(0, 0));
    let cases: [(&[Constraint], &[Constraint], Want<'_>); 11] = [
        (&[rises], &[falls], Want::Cycle(&[falls, rises])),
        (&[even], &[falls], Want::Accepted),
        (&[low], &[high], Want::Cycle(&[high, low])),
        (&[high], &[low], Want::Cycle(&[low, high])),
        (&[], &[wrong], Want::Cycle(&[wrong])),
        (&[far], &[rises], Want::TooBig(rises, 1_000_001)),
        (&[], &[far], Want::Accepted),
        (&[], &[beyond], Want::TooBig(beyond, 1_000_001)),
        (&[], &[idle, beyond], Want::TooBig(beyond, 1_000_001)),
        (&[], &[negative], Want::Cycle(&[negative, implied])),
        (&[far], &[rises, falls], Want::Cycle(&[falls, rises])),
    ];
    for (held, added, want) in cases {
        let outcome = outcome_of(alloc, held, added);
        assert!(rt; meets(&outcome, want), "{outcome:?} came, not {want:?}");
    }
}

#[test]
fn a_refusal_and_a_cut_go_back(rt: HostRuntime) -> Result<(), Fail> {
    let alloc = rt.alloc();
    let mut graph = Graph::new(alloc);
    let first = at_most(fixed(2), variable(0, 0));
    let second = at_most(variable(0, 1), variable(1, 0));
    let third = at_most(fixed(7), variable(0, 0));
    let back = at_most(variable(1, 0), variable(0, 0));
    assert!(rt; graph.extend(&[first, second]).is_ok());
    let outcome = graph.extend(&[third, back]);
    assert!(rt;
        meets(&outcome, Want::Cycle(&[back, second])),
        "{outcome:?} came"
    );
    assert!(rt; graph.len() == 2 && graph.constraints() == [first, second].as_slice());
    assert!(rt; graph.extend(&[third]).is_ok());
    assert!(rt; graph.len() == 3);
    if graph.len() >= 1 {
        graph.cut_to(1);
    }
    assert!(rt; graph.constraints() == [first].as_slice());
    assert!(rt; graph.extend(&[back]).is_ok());
    Ok(())
}

#[test]
fn a_long_cycle_is_found(rt: HostRuntime) -> Result<(), Fail> {
    let alloc = rt.alloc();
    let mut graph = Graph::new(alloc);
    for number in 0..999u32 {
        let even = at_most(variable(number, 0), variable(number + 1, 0));
        assert!(rt; graph.extend(&[even]).is_ok());
    }
    let closing = at_most(variable(999, 1), variable(0, 0));
    match graph.extend(&[closing]) {
        Err(GraphFault::Cycle(cycle)) => assert!(rt; cycle.items().len() == 1000),
        _ => assert!(rt; false),
    }
    assert!(rt; graph.len() == 999);
    let back = at_most(variable(999, 0), variable(0, 0));
    assert!(rt; graph.extend(&[back]).is_ok());
    Ok(())
}

#[test]
fn a_chain_may_come_last_to_first(rt: HostRuntime) -> Result<(), Fail> {
    let alloc = rt.alloc();
    let mut graph = Graph::new(alloc);
    for number in (0..5000u32).rev() {
        let strict = at_most(variable(number, 1), variable(number + 1, 0));
        assert!(rt; graph.extend(&[strict]).is_ok());
    }
    let low = at_most(variable(5000, 0), fixed(4999));
    assert!(rt; matches!(graph.extend(&[low]), Err(GraphFault::Cycle(_))));
    let high = at_most(variable(5000, 0), fixed(5000));
    assert!(rt; graph.extend(&[high]).is_ok());
    let far = at_most(fixed(995_001), variable(0, 0));
    assert!(rt; matches!(graph.extend(&[far]), Err(GraphFault::Cycle(_))));
    if graph.len() >= 5000 {
        graph.cut_to(5000);
    }
    let outcome = graph.extend(&[far]);
    assert!(rt; matches!(outcome, Err(GraphFault::LevelTooBig { .. })));
    let near = at_most(fixed(995_000), variable(0, 0));
    assert!(rt; graph.extend(&[near]).is_ok());
    Ok(())
}

/// A level over three variables, picked by a number below 12.
fn pick_level(number: u64) -> Level
    ensures { IsVariableBelow 3 result.base }
{
    let plus = (number % 3) as u32;
    match number / 3 {
        0 => fixed(plus),
        1 => variable(0, plus),
        2 => variable(1, plus),
        _ => variable(2, plus),
    }
}

/// A constraint over three variables, picked by a number.
fn pick(number: u64) -> Constraint
    ensures low { IsVariableBelow 3 result.low.base }
    ensures high { IsVariableBelow 3 result.high.base }
{
    at_most(pick_level(number % 12), pick_level(number / 12 % 12))
}

fn value(level: Level, values: [u64; 3]) -> u64 {
    let base = match level.base {
        None => 0,
        Some(number) => values.get(number as usize).copied().unwrap_or(0),
    };
    base.saturating_add(u64::from(level.plus))
}

/// The least of the values up to 8 that satisfy the constraints, by trying all.
fn try_all(constraints: &[Constraint]) -> Option<[u64; 3]> {
    let mut best: Option<[u64; 3]> = None;
    for number in 0..729u64 {
        let values = [number / 81, number / 9 % 9, number % 9];
        if constraints
            .iter()
            .all(|c| value(c.low, values) <= value(c.high, values))
        {
            let [a, b, c] = best.unwrap_or(values);
            best = Some([a.min(values[0]), b.min(values[1]), c.min(values[2])]);
        }
    }
    best
}

#[test]
fn small_graphs_agree_with_a_plain_search(rt: HostRuntime) -> Result<(), Fail> {
    let alloc = rt.alloc();
    let mut state: u64 = 12345;
    let mut used = Graph::new(alloc);
    for turn in 0..300 {
        state = state
            .wrapping_mul(6_364_136_223_846_793_005)
            .wrapping_add(1_442_695_040_888_963_407);
        let number = state >> 20;
        let constraints = [
            pick(number),
            pick(number / 144),
            pick(number / 20_736),
            pick(number / 2_985_984),
        ];
        let mut graph = Graph::new(alloc);
        let outcome = graph.extend(&constraints);
        let again = used.extend(&constraints);
        assert!(rt; again.is_ok() == outcome.is_ok(), "at {turn}");
        used.cut_to(0);
        match try_all(&constraints) {
            None => assert!(rt; matches!(outcome, Err(GraphFault::Cycle(_))), "at {turn}"),
            Some(best) => {
                assert!(rt; outcome.is_ok(), "at {turn}");
                let values = graph.least(3)?;
                assert!(rt; values.as_slice() == best.as_slice(), "at {turn}");
            }
        }
    }
    Ok(())
}
