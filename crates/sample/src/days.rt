//! What the rows of a flow table come to over all days.

ghost use Rattle.std.specs.Prelude.{◌≡◌, map, IfOk};
ghost use Rattle.std.specs.List.{All};
ghost use Rattle.report.specs.SumTables.{HasSmallAmount, IsSummable};
ghost use Rattle.sample.specs.Days.{AreDue, IsOverDays, undated};

use decimal::NoMemory;
use flow_eval::{FlowRow, FlowTable, Payment, Transfer, netted, payment_on};
use std::alloc::Global;

// What a row says, on day 0.
fn undated(row: &FlowRow) -> Payment
    requires { HasSmallAmount row.now }
    ensures { result ≡ undated row.now }
{
    let transfer = Transfer {
        asset: row.asset,
        from: row.from,
        to: row.to,
    };
    payment_on(0, transfer, row.amount)
}

// What the rows say, each on day 0.
fn undated_payments(alloc: Global, rows: &[FlowRow]) -> Result<Vec<Payment>, NoMemory>
    requires { All (λ row. HasSmallAmount row) rows.now }
    ensures { IfOk result (λ payments. payments.items ≡ map undated rows.now) }
{
    let mut payments = Vec::new(alloc);
    for row in rows {
        payments.push(undated(row))?;
    }
    Ok(payments)
}

/// What the rows of a flow table come to over all days, as the flow table of day 0.
pub fn over_days(alloc: Global, table: &FlowTable) -> Result<FlowTable, NoMemory>
    requires summable { IsSummable table.now.rows.items }
    requires due { AreDue table.now.rows.items }
    ensures { IfOk result (λ sums. IsOverDays table.now.rows.items sums.rows.items) }
{
    let payments = undated_payments(alloc, &table.rows)?;
    netted(alloc, payments)
}
