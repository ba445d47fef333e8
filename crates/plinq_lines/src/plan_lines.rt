ghost use Rattle.std.specs.Prelude.{◌≡◌};
ghost use Rattle.plinq_lines.specs.PlanText.{order_name, settings_text, plan_text};
ghost use Rattle.plinq_lines.specs.Written.{Writes};

use crate::op_words::write_part;
use crate::piece::Piece;
use crate::pieces::write_pieces;
use crate::write_fault::WriteFault;
use plinq_lambda::Formula;
use plinq_ops::{MergeOption, Order, Query};
use plinq_words::Named;
use std::io::Write;

/// Writes the five lines of a query's plan. Takes no memory.
///
/// ```text
/// workers 4
/// merge auto
/// order key
/// worker select add 1
/// after take 5, filter even
/// ```
///
/// # Errors
///
/// [`WriteFault`] if the writer fails, or takes none of the bytes that it is given. What it took until then is a
/// beginning of these lines.
pub fn write_plan<W: Write>(writer: &mut W, query: &Query<Formula>) -> Result<(), WriteFault>
    ensures { Writes (W.contents writer.old) (W.contents writer.new) result (plan_text query.now) }
{
    let plan = query.split();
    write_settings(writer, query.degree(), query.merge_option(), plan.order)?;
    write_part(writer, "worker ", plan.worker)?;
    write_part(writer, "after ", plan.after)
}

fn write_settings<W: Write>(
    writer: &mut W,
    degree: u64,
    option: MergeOption,
    order: Order,
) -> Result<(), WriteFault>
    ensures { Writes (W.contents writer.old) (W.contents writer.new) result (settings_text degree option order) }
{
    write_pieces(
        writer,
        &[
            Piece::Text("workers "),
            Piece::Count(degree),
            Piece::Text("\nmerge "),
            Piece::Text(option.name()),
            Piece::Text("\norder "),
            Piece::Text(order_name(order)),
            Piece::Text("\n"),
        ],
    )
}

fn order_name(order: Order) -> &'static str
    ensures { result.now ≡ order_name order }
{
    match order {
        Order::ByKey => "key",
        Order::ByArrival => "arrival",
    }
}
