//! What each call of a chain answers of seven numbers.
//!
//! The calls stand in functions over any steps, one in each: there what a call needs of the closures is given, and not proved.
ghost use Rattle.std.specs.Prelude.{◌≡◌, pos, int_lt, nat_lt, length, Ok};

use plinq_closures::{Chain, ChainFault, Sequentially, Steps};
use plinq_ops::BuildFault;
use plinq_run::RunFault;
use plinq_slice::{SliceSource, lines_source};
use plinq_source::Ending;
use std::alloc::Global;
use std::sync::Wait;
use std::test::Fail;
use std::thread::Threads;
use std::time::Clock;

const NUMBERS: [i64; 7] = [1, 4, 2, 8, 5, 7, 3];

fn is_list<S: Steps<Item = i64> + Sync, R: Clock + Threads + Wait + Sync>(
    rt: &R,
    alloc: Global,
    chain: &Chain<S>,
    wanted: &[i64],
) -> bool
    requires is_called { S.is_called chain.now.steps }
    requires in_one_way { S.in_one_way chain.now.steps }
    requires gives { S.gives chain.now.steps }
    requires gives_one { S.gives_one chain.now.steps }
{
    let Ok(source) = SliceSource::new(&NUMBERS) else {
        return false;
    };
    match chain.to_vec(rt, alloc, 4, source) {
        Ok((found, ending)) => found.as_slice() == wanted && ending == Ending::End,
        Err(_) => false,
    }
}

fn is_first<S: Steps<Item = i64> + Sync, R: Clock + Threads + Wait + Sync>(
    rt: &R,
    alloc: Global,
    chain: &Chain<S>,
    wanted: Option<i64>,
) -> bool
    requires is_called { S.is_called chain.now.steps }
    requires in_one_way { S.in_one_way chain.now.steps }
    requires gives { S.gives chain.now.steps }
    requires gives_one { S.gives_one chain.now.steps }
{
    match SliceSource::new(&NUMBERS) {
        Ok(source) => chain.first(rt, alloc, 4, source) == Ok(wanted),
        Err(_) => false,
    }
}

fn is_at<S: Steps<Item = i64> + Sync, R: Clock + Threads + Wait + Sync>(
    rt: &R,
    alloc: Global,
    chain: &Chain<S>,
    place: u32,
    wanted: Option<i64>,
) -> bool
    requires is_called { S.is_called chain.now.steps }
    requires in_one_way { S.in_one_way chain.now.steps }
    requires gives { S.gives chain.now.steps }
    requires gives_one { S.gives_one chain.now.steps }
{
    match SliceSource::new(&NUMBERS) {
        Ok(source) => chain.element_at(rt, alloc, 4, source, place) == Ok(wanted),
        Err(_) => false,
    }
}

fn is_any<S: Steps<Item = i64> + Sync, R: Clock + Threads + Wait + Sync>(
    rt: &R,
    alloc: Global,
    chain: &Chain<S>,
    wanted: bool,
) -> bool
    requires is_called { S.is_called chain.now.steps }
    requires in_one_way { S.in_one_way chain.now.steps }
    requires gives { S.gives chain.now.steps }
    requires gives_one { S.gives_one chain.now.steps }
{
    match SliceSource::new(&NUMBERS) {
        Ok(source) => chain.any(rt, alloc, 4, source) == Ok(wanted),
        Err(_) => false,
    }
}

fn is_count<S: Steps<Item = i64> + Sync, R: Clock + Threads + Wait + Sync>(
    rt: &R,
    alloc: Global,
    chain: &Chain<S>,
    wanted: u64,
) -> bool
    requires is_called { S.is_called chain.now.steps }
    requires in_one_way { S.in_one_way chain.now.steps }
    requires gives { S.gives chain.now.steps }
    requires gives_one { S.gives_one chain.now.steps }
{
    match SliceSource::new(&NUMBERS) {
        Ok(source) => chain.count(rt, alloc, 4, source) == Ok(wanted),
        Err(_) => false,
    }
}

fn is_first_by_one<S: Steps<Item = i64> + Sync, R: Clock + Threads + Wait + Sync>(
    rt: &R,
    alloc: Global,
    chain: &Sequentially<'_, S>,
    wanted: Option<i64>,
) -> bool
    requires is_called { S.is_called chain.now.steps.now }
    requires in_one_way { S.in_one_way chain.now.steps.now }
    requires gives { S.gives chain.now.steps.now }
    requires gives_one { S.gives_one chain.now.steps.now }
{
    match SliceSource::new(&NUMBERS) {
        Ok(source) => chain.first(rt, alloc, 4, source) == Ok(wanted),
        Err(_) => false,
    }
}

fn is_at_by_one<S: Steps<Item = i64> + Sync, R: Clock + Threads + Wait + Sync>(
    rt: &R,
    alloc: Global,
    chain: &Sequentially<'_, S>,
    place: u32,
    wanted: Option<i64>,
) -> bool
    requires is_called { S.is_called chain.now.steps.now }
    requires in_one_way { S.in_one_way chain.now.steps.now }
    requires gives { S.gives chain.now.steps.now }
    requires gives_one { S.gives_one chain.now.steps.now }
{
    match SliceSource::new(&NUMBERS) {
        Ok(source) => chain.element_at(rt, alloc, 4, source, place) == Ok(wanted),
        Err(_) => false,
    }
}

fn is_any_by_one<S: Steps<Item = i64> + Sync, R: Clock + Threads + Wait + Sync>(
    rt: &R,
    alloc: Global,
    chain: &Sequentially<'_, S>,
    wanted: bool,
) -> bool
    requires is_called { S.is_called chain.now.steps.now }
    requires in_one_way { S.in_one_way chain.now.steps.now }
    requires gives { S.gives chain.now.steps.now }
    requires gives_one { S.gives_one chain.now.steps.now }
{
    match SliceSource::new(&NUMBERS) {
        Ok(source) => chain.any(rt, alloc, 4, source) == Ok(wanted),
        Err(_) => false,
    }
}

fn is_count_by_one<S: Steps<Item = i64> + Sync, R: Clock + Threads + Wait + Sync>(
    rt: &R,
    alloc: Global,
    chain: &Sequentially<'_, S>,
    wanted: u64,
) -> bool
    requires is_called { S.is_called chain.now.steps.now }
    requires in_one_way { S.in_one_way chain.now.steps.now }
    requires gives { S.gives chain.now.steps.now }
    requires gives_one { S.gives_one chain.now.steps.now }
{
    match SliceSource::new(&NUMBERS) {
        Ok(source) => chain.count(rt, alloc, 4, source) == Ok(wanted),
        Err(_) => false,
    }
}

fn is_there<S: Steps<Item = i64> + Sync, R: Clock + Threads + Wait + Sync>(
    rt: &R,
    alloc: Global,
    chain: &Chain<S>,
    item: i64,
    wanted: bool,
) -> bool
    requires is_called { S.is_called chain.now.steps }
    requires in_one_way { S.in_one_way chain.now.steps }
    requires gives { S.gives chain.now.steps }
    requires gives_one { S.gives_one chain.now.steps }
{
    match SliceSource::new(&NUMBERS) {
        Ok(source) => chain.contains(rt, alloc, 4, source, item) == Ok(wanted),
        Err(_) => false,
    }
}

fn is_all_below<S: Steps<Item = i64> + Sync, R: Clock + Threads + Wait + Sync>(
    rt: &R,
    alloc: Global,
    chain: &Chain<S>,
    item: i64,
    wanted: bool,
) -> bool
    requires is_called { S.is_called chain.now.steps }
    requires in_one_way { S.in_one_way chain.now.steps }
    requires gives { S.gives chain.now.steps }
    requires gives_one { S.gives_one chain.now.steps }
{
    let below = move |x: i64| -> Result<bool, u32>
        ensures { result ≡ Ok (int_lt x item) }
    { Ok(x < item) };
    match SliceSource::new(&NUMBERS) {
        Ok(source) => chain.all(rt, alloc, 4, source, below) == Ok(wanted),
        Err(_) => false,
    }
}

#[test]
fn counts_and_tests_in_their_order(rt: HostRuntime) {
    let chain = Chain::new()
        .skip(1)
        .filter(
            |x: i64| -> Result<bool, u32>
                ensures { result ≡ Ok (int_lt (pos 2) x) }
            { Ok(x > 2) },
        )
        .take(3);
    assert!(&rt; is_first(&rt, rt.alloc(), &chain, Some(4)));
    assert!(&rt; is_at(&rt, rt.alloc(), &chain, 2, Some(5)));
    assert!(&rt; is_any(&rt, rt.alloc(), &chain, true));
    assert!(&rt; is_count(&rt, rt.alloc(), &chain, 3));
    assert!(&rt; is_list(&rt, rt.alloc(), &chain, &[4, 8, 5]));
    let chain = chain.sequentially();
    assert!(&rt; is_first_by_one(&rt, rt.alloc(), &chain, Some(4)));
    assert!(&rt; is_at_by_one(&rt, rt.alloc(), &chain, 3, None));
    assert!(&rt; is_any_by_one(&rt, rt.alloc(), &chain, true));
    assert!(&rt; is_count_by_one(&rt, rt.alloc(), &chain, 3));
}

fn is_refused<R: Clock + Threads + Wait + Sync>(rt: &R, alloc: Global, workers: u64) -> bool {
    let fault = ChainFault::Build(BuildFault::DegreeOutOfRange);
    match SliceSource::new(&NUMBERS) {
        Ok(source) => Chain::new().count(rt, alloc, workers, source) == Err(fault),
        Err(_) => false,
    }
}

#[test]
fn no_workers_or_too_many_are_refused(rt: HostRuntime) {
    assert!(&rt; is_refused(&rt, rt.alloc(), 0) && is_refused(&rt, rt.alloc(), 65));
}

#[test]
fn tests_from_the_front_and_a_map(rt: HostRuntime) {
    let chain = Chain::new()
        .skip_while(
            |x: i64| -> Result<bool, u32>
                ensures { result ≡ Ok (int_lt x (pos 8)) }
            { Ok(x < 8) },
        )
        .take_while(
            |x: i64| -> Result<bool, u32>
                ensures { result ≡ Ok (int_lt (pos 4) x) }
            { Ok(x > 4) },
        )
        .select(
            |x: i64| -> Result<i64, u32>
                ensures { result ≡ Ok x }
            { Ok(x) },
        );
    assert!(&rt; is_list(&rt, rt.alloc(), &chain, &[8, 5, 7]));
}

#[test]
fn looks_for_items(rt: HostRuntime) {
    let chain = Chain::new().filter(
        |x: i64| -> Result<bool, u32>
            ensures { result ≡ Ok (int_lt (pos 2) x) }
        { Ok(x > 2) },
    );
    for (item, is_among, are_below) in [(2, false, false), (8, true, false), (9, false, true)] {
        assert!(&rt; is_there(&rt, rt.alloc(), &chain, item, is_among));
        assert!(&rt; is_all_below(&rt, rt.alloc(), &chain, item, are_below));
    }
}

/// Makes a number of digits. A digit is answered by a code.
fn note(digits: &mut i64, item: i64, last: i64) -> Result<(), u32> {
    *digits = digits.wrapping_mul(10).wrapping_add(item);
    if item == last { Err(9) } else { Ok(()) }
}

/// The digits with which a closure is called up to the 5, if it is told so.
fn called<R: Clock + Threads + Wait + Sync>(rt: &R, alloc: Global) -> Option<i64> {
    let Ok(source) = SliceSource::new(&NUMBERS) else {
        return None;
    };
    let mut digits = 0i64;
    let told = Chain::new().skip(1).for_each(
        rt,
        alloc,
        4,
        source,
        &mut |item: i64| note(&mut digits, item, 5),
    );
    if told == Err(ChainFault::Run(RunFault::Sink(9))) {
        Some(digits)
    } else {
        None
    }
}

/// The same on one thread, up to the 8.
fn called_by_one<R: Clock + Threads + Wait + Sync>(rt: &R, alloc: Global) -> Option<i64> {
    let Ok(source) = SliceSource::new(&NUMBERS) else {
        return None;
    };
    let mut digits = 0i64;
    let told = Chain::new().skip(1).sequentially().for_each(
        rt,
        alloc,
        4,
        source,
        &mut |item: i64| note(&mut digits, item, 8),
    );
    if told == Err(ChainFault::Run(RunFault::Sink(9))) {
        Some(digits)
    } else {
        None
    }
}

#[test]
fn calls_a_closure_up_to_its_code(rt: HostRuntime) {
    assert!(&rt; called(&rt, rt.alloc()) == Some(4285));
    assert!(&rt; called_by_one(&rt, rt.alloc()) == Some(428));
}

#[test]
fn one_thread_answers_as_workers_do(rt: HostRuntime) -> Result<(), Fail> {
    let chain = Chain::new()
        .filter(
            |line: &str| -> Result<bool, u32>
                ensures { result ≡ Ok (nat_lt 1 (length line.entry.now)) }
            { Ok(line.len() > 1) },
        )
        .take(2);
    let text = "one\n\ntwo\nthree";
    let source = lines_source(rt.alloc(), text)?;
    assert!(&rt; chain.contains(&rt, rt.alloc(), 4, source, "two")?);
    let by_workers = chain.to_vec(&rt, rt.alloc(), 4, lines_source(rt.alloc(), text)?)?;
    let source = lines_source(rt.alloc(), text)?;
    let items = chain.sequentially().to_vec(&rt, rt.alloc(), 4, source)?;
    assert!(&rt; items == by_workers && items.0.as_slice() == ["one", "two"].as_slice());
    Ok(())
}
