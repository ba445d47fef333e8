use std::alloc::{AllocError, Global};

/// A line of a text, as `ann 1250 lamp`. It borrows from the text.
#[derive(Clone, Copy, PartialEq, Eq)]
pub(crate) struct Order<'a> {
    pub(crate) customer: &'a str,
    pub(crate) cents: i64,
    pub(crate) article: &'a str,
}

/// The orders of a text. Other lines are left out.
pub(crate) fn orders_of<'a>(alloc: Global, text: &'a str) -> Result<Vec<Order<'a>>, AllocError> {
    let mut orders = Vec::new(alloc);
    for line in text.lines() {
        if let Some(order) = order_of(line) {
            orders.push(order)?;
        }
    }
    Ok(orders)
}

fn order_of<'a>(line: &'a str) -> Option<Order<'a>> {
    let (customer, rest) = line.split_once(' ')?;
    let (cents, article) = rest.split_once(' ')?;
    Some(Order {
        customer,
        cents: cents.parse::<i64>().ok()?,
        article,
    })
}
