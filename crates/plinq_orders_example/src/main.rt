//! `plinq_orders_example`: what each customer of a list of orders has spent, the dearest orders of each, and all as lines.
//!
//!     plinq_orders_example < orders.txt
//!
//! An example of groups and of a last step to another type, by 1 and 4 workers beside a plain loop, made to be copied;
//! docs/LIBRARY.md goes through it.
#![tactic(auto)]

mod line;
mod orders;
mod paid;
mod parts;

use crate::line::{Line, Print};
use crate::orders::{Order, orders_of};
use crate::paid::Paid;
use crate::parts::{Cents, Customer};
use anyhow::{Result, bail};
use plinq_aggregate::{Count, Sum};
use plinq_enumerator::Growth;
use plinq_groups::{Both, By, GroupBy, MapEach, Top};
use plinq_mapped::to_vec_mapped;
use plinq_ops::{BuildFault, Query};
use plinq_run::{TimedGate, aggregate};
use plinq_slice::SliceSource;
use plinq_source::Ending;
use std::alloc::{AllocError, Global};
use std::marker::PhantomData;
use std::sync::Wait;
use std::thread::Threads;
use std::time::Clock;

/// How many of the dearest orders are shown.
const SHOWN: usize = 3;

/// What a customer has spent, and the dearest orders, the dearest first.
#[derive(Drop, PartialEq, Eq)]
struct Spent<'a> {
    customer: &'a str,
    count: u64,
    cents: i128,
    dearest: Vec<Order<'a>>,
}

fn main(rt: HostRuntime) -> Result<()> {
    let text = std::io::read_to_string(rt.alloc(), rt.stdin())?;
    let orders = orders_of(rt.alloc(), text.as_str())?;
    let spent = spent_by(&rt, rt.alloc(), orders.as_slice(), 1)?;
    if spent_by(&rt, rt.alloc(), orders.as_slice(), 4)? != spent
        || spent_by_loop(rt.alloc(), orders.as_slice())? != spent
    {
        bail!("the answers differ");
    }
    for each in &spent {
        let mean = each.cents.checked_div(i128::from(each.count)).unwrap_or(0);
        println!(rt;
            "{}: {} orders, {} cents, {mean} on average, the dearest:",
            each.customer, each.count, each.cents
        )?;
        for order in &each.dearest {
            println!(rt; "  {} {}", order.article, order.cents)?;
        }
    }
    for line in &lines(&rt, rt.alloc(), orders.as_slice(), 4)? {
        println!(rt; "{}", line.text)?;
    }
    Ok(())
}

fn query<'a>(alloc: Global, workers: u64) -> Result<Query<Paid<'a>>, BuildFault> {
    let query = Query::new(alloc).as_ordered()?.with_degree(workers)?;
    Ok(query.filter(Paid(PhantomData))?)
}

/// What each customer has spent, in the order of their first orders.
fn spent_by<'a, R: Clock + Threads + Wait + Sync>(
    rt: &R,
    alloc: Global,
    orders: &[Order<'a>],
    workers: u64,
) -> Result<Vec<Spent<'a>>> {
    let by = GroupBy {
        key: Customer(PhantomData),
        each: Both {
            first: By {
                field: Cents(PhantomData),
                each: Both {
                    first: Sum,
                    second: Count,
                },
            },
            second: Top {
                rank: Cents(PhantomData),
                count: SHOWN,
            },
        },
    };
    let query = query(alloc, workers)?;
    let source = SliceSource::new(orders)?;
    let gate = TimedGate::new(rt);
    let groups = aggregate(rt, alloc, &query, source, Growth::DEFAULT, &gate, &by)?;
    let mut spent = Vec::new(alloc);
    for (customer, ((cents, count), dearest)) in groups.into_map() {
        spent.push(Spent {
            customer,
            count,
            cents,
            dearest: dearest.into_vec(),
        })?;
    }
    Ok(spent)
}

/// The same by a plain loop.
fn spent_by_loop<'a>(alloc: Global, orders: &[Order<'a>]) -> Result<Vec<Spent<'a>>> {
    let mut spent: Vec<Spent<'a>> = Vec::new(alloc);
    for order in orders {
        if order.cents <= 0 {
            continue;
        }
        let at = spent
            .iter()
            .position(|each| each.customer == order.customer);
        match at.and_then(|at| spent.get_mut(at)) {
            Some(each) => {
                each.count = each.count.wrapping_add(1);
                each.cents = each.cents.wrapping_add(i128::from(order.cents));
                put_in(&mut each.dearest, *order)?;
            }
            None => {
                let mut dearest = Vec::new(alloc);
                dearest.push(*order)?;
                spent.push(Spent {
                    customer: order.customer,
                    count: 1,
                    cents: i128::from(order.cents),
                    dearest,
                })?;
            }
        }
    }
    Ok(spent)
}

/// Puts an order after those that are as dear.
fn put_in<'a>(dearest: &mut Vec<Order<'a>>, order: Order<'a>) -> Result<(), AllocError> {
    let cheaper = dearest.iter().position(|each| each.cents < order.cents);
    match cheaper {
        Some(at) if at <= dearest.len() => dearest.insert(at, order)?,
        _ => dearest.push(order)?,
    }
    dearest.truncate(SHOWN);
    Ok(())
}

/// The orders as lines, which the workers make.
fn lines<R: Clock + Threads + Wait + Sync>(
    rt: &R,
    alloc: Global,
    orders: &[Order<'_>],
    workers: u64,
) -> Result<Vec<Line>> {
    let query = query(alloc, workers)?;
    let source = SliceSource::new(orders)?;
    let print = MapEach {
        make: Print(PhantomData),
    };
    let (lines, ending) = to_vec_mapped(rt, alloc, &query, source, &print)?;
    if ending != Ending::End {
        bail!("an order without a line");
    }
    Ok(lines)
}
