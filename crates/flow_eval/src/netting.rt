//! Payments, netted slot by slot.

ghost use Rattle.std.specs.Prelude.{◌≡◌, ◌++◌, OnOk, IfOk};
ghost use Rattle.std.specs.List.Sorted.{IsPermutation};
ghost use Rattle.flow_eval.specs.Tables.{FitsLine};
ghost use Rattle.flow_eval.specs.Netting.{AreInOrder, CanBeNetted, Nets, TakesIn, closed, joined};
ghost use Rattle.flow_eval.specs.Netting.{row_of, rows_of, taken_in};

use crate::flow_table::{FlowRow, FlowTable, Slot};
use crate::payments::{Payment, opposite};
use decimal::NoMemory;
use std::alloc::Global;

// A sum, and a further payment at its slot.
fn joined(sum: Payment, payment: &Payment) -> Payment
    requires sum { FitsLine sum.amount }
    requires payment { FitsLine payment.now.amount }
    ensures { result ≡ joined sum payment.now }
{
    Payment {
        slot: sum.slot,
        amount: sum.amount + payment.amount,
    }
}

// A sum in the direction in which it is positive.
fn row_of(sum: Payment) -> FlowRow
    requires { FitsLine sum.amount }
    ensures { result ≡ row_of sum }
{
    let Slot {
        day,
        asset,
        lower,
        higher,
    } = sum.slot;
    if 0 < sum.amount {
        FlowRow {
            day,
            asset,
            from: lower,
            to: higher,
            amount: sum.amount,
        }
    } else {
        FlowRow {
            day,
            asset,
            from: higher,
            to: lower,
            amount: opposite(sum.amount),
        }
    }
}

// Appends the row of a sum, if it is not 0.
fn close(rows: &mut Vec<FlowRow>, sum: Payment) -> Result<(), NoMemory>
    requires { FitsLine sum.amount }
    ensures { OnOk result (rows.new.items ≡ rows.old.items ++ closed sum) }
{
    if sum.amount != 0 {
        rows.push(row_of(sum))?;
    }
    Ok(())
}

// Joins a payment to the open sum, or closes that and opens the next.
fn take_in(rows: &mut Vec<FlowRow>, sum: Payment, payment: &Payment) -> Result<Payment, NoMemory>
    requires sum { FitsLine sum.amount }
    requires payment { FitsLine payment.now.amount }
    ensures rows { IfOk result
        (λ next. TakesIn payment.now sum next rows.old.items rows.new.items) }
    ensures next { IfOk result (λ next. next ≡ taken_in sum payment.now) }
{
    if sum.slot == payment.slot {
        Ok(joined(sum, payment))
    } else {
        close(rows, sum)?;
        Ok(*payment)
    }
}

// The rows of payments that stand in order of their slots.
fn rows_of(alloc: Global, payments: &[Payment]) -> Result<Vec<FlowRow>, NoMemory>
    requires { CanBeNetted payments.now }
    ensures { IfOk result (λ rows. rows.items ≡ rows_of payments.now) }
{
    let [first, rest @ ..] = payments else {
        return Ok(Vec::new(alloc));
    };
    let mut rows = Vec::with_capacity(alloc, payments.len())?;
    let mut sum = *first;
    for payment in rest {
        sum = take_in(&mut rows, sum, payment)?;
    }
    close(&mut rows, sum)?;
    Ok(rows)
}

// Puts payments in order of their slots.
fn sort(payments: &mut Vec<Payment>) -> Result<(), NoMemory>
    ensures moved { IsPermutation payments.old.items payments.new.items }
    ensures in_order { OnOk result (AreInOrder payments.new.items) }
{
    if payments.len() < 2 {
        return Ok(());
    }
    payments.sort_by_key(|payment| payment.slot)?;
    Ok(())
}

/// The flow table of payments: a row for each slot at which they do not come to 0, by one sort. It
/// leaves the same payments in another order, and does so where memory runs out.
pub fn net_payments(alloc: Global, payments: &mut Vec<Payment>) -> Result<FlowTable, NoMemory>
    requires { CanBeNetted payments.old.items }
    ensures nets { IfOk result (λ table. Nets payments.old.items table.rows.items) }
    ensures moved { IsPermutation payments.old.items payments.new.items }
{
    sort(payments)?;
    let rows = rows_of(alloc, payments)?;
    Ok(FlowTable { rows })
}

/// The same of payments that are of no use afterwards.
pub fn netted(alloc: Global, payments: Vec<Payment>) -> Result<FlowTable, NoMemory>
    requires { CanBeNetted payments.items }
    ensures { IfOk result (λ table. Nets payments.items table.rows.items) }
{
    let mut payments = payments;
    net_payments(alloc, &mut payments)
}
