//! The sum of flow tables.

ghost use Rattle.std.specs.Prelude.{◌≡◌, ◌≤◌, ◌++◌, [], length, map, true, IfOk, OnErr, OnOk};
ghost use Rattle.std.specs.List.{All};
ghost use Rattle.term_model.specs.Limits.{longest_file};
ghost use Rattle.flow_eval.specs.Netting.{CanBeNetted};
ghost use Rattle.flow_eval.specs.Tables.{FitsLine, slot_of};
ghost use Rattle.report.specs.RunningSums.{AddsTable, IsSumOfFew, IsSumSoFar, KeepsSum, TellsSum};
ghost use Rattle.report.specs.SumTables.{AreSummable, IsSummable, IsSumOf, payment_of};

use decimal::NoMemory;
use flow_eval::{FlowRow, FlowTable, Payment, Slot, net_payments, netted};
use std::alloc::Global;

// Fewer payments are not worth a sort.
const LEAST_DUE: usize = 1024;

// No sum of payments overflows whose sizes add up to so much.
const MOST: u128 = 1_000_000_000_000_000_000_000_000_000_000_000_000;

/// The sum of flow tables that come one by one. Payments are netted when they are twice as many as
/// after the last time, as long as their sizes add up to at most `10^36`. So it keeps some twice as
/// many as the sum has rows, and those of one table. No clause speaks of how many.
#[derive(Drop)]
pub struct FlowSum {
    /// What the tables so far come to, in no order.
    pub payments: Vec<Payment>,
    /// How many payments are netted when they are so many.
    pub due: usize,
}

// Where a row stands.
fn slot_of(row: &FlowRow) -> Slot
    ensures { result ≡ slot_of row.now }
{
    Slot {
        day: row.day,
        asset: row.asset,
        lower: row.from.min(row.to),
        higher: row.from.max(row.to),
    }
}

// What a row says, as a payment from the lower party to the higher one.
fn payment_of(row: &FlowRow) -> Payment
    requires { FitsLine row.now.amount }
    ensures { result ≡ payment_of row.now }
{
    Payment {
        slot: slot_of(row),
        amount: if row.from < row.to {
            row.amount
        } else {
            -row.amount
        },
    }
}

// Appends the payments of all rows, or none.
fn append_payments(out: &mut Vec<Payment>, rows: &[FlowRow]) -> Result<(), NoMemory>
    requires { All (λ row. FitsLine row.amount) rows.now }
    ensures ok { OnOk result (out.new.items ≡ out.old.items ++ map payment_of rows.now) }
    ensures err { OnErr result (out.new.items ≡ out.old.items) }
{
    let before = out.len();
    for row in rows {
        if let Err(full) = out.push(payment_of(row)) {
            out.truncate(before);
            return Err(full.into());
        }
    }
    Ok(())
}

// Whether the sizes of payments add up to so little that no sum of them overflows.
fn can_be_netted(payments: &[Payment]) -> bool
    ensures { result ≡ true → CanBeNetted payments.now }
{
    let mut size = 0;
    for payment in payments {
        size += payment.amount.unsigned_abs();
        if MOST < size {
            return false;
        }
    }
    true
}

impl FlowSum {
    /// The sum of no tables. It takes no memory.
    pub fn new(alloc: Global) -> FlowSum
        ensures { IsSumSoFar [] result }
    {
        FlowSum {
            payments: Vec::new(alloc),
            due: LEAST_DUE,
        }
    }

    // Nets the payments.
    fn net(&mut self, alloc: Global) -> Result<(), NoMemory>
        requires { CanBeNetted self.old.payments.items }
        ensures { KeepsSum self.old self.new }
    {
        let table = net_payments(alloc, &mut self.payments)?;
        let mut payments = Vec::with_capacity(alloc, table.rows.len())?;
        append_payments(&mut payments, &table.rows)?;
        self.due = payments.len().saturating_mul(2).max(LEAST_DUE);
        self.payments = payments;
        Ok(())
    }

    // Nets the payments if they are due, and no sum of them overflows.
    fn net_if_due(&mut self, alloc: Global) -> Result<(), NoMemory>
        ensures { KeepsSum self.old self.new }
    {
        if self.payments.len() < self.due || !can_be_netted(&self.payments) {
            return Ok(());
        }
        self.net(alloc)
    }

    /// Adds a table. Where memory runs out, it is the sum that it was.
    pub fn add(&mut self, alloc: Global, table: &FlowTable) -> Result<(), NoMemory>
        requires { IsSummable table.now.rows.items }
        ensures ok { OnOk result (AddsTable table.now self.old self.new) }
        ensures err { OnErr result (KeepsSum self.old self.new) }
    {
        self.net_if_due(alloc)?;
        append_payments(&mut self.payments, &table.rows)?;
        Ok(())
    }

    /// The sum as a flow table: what goes one way is netted against what goes back, and what comes
    /// to 0 has no row.
    pub fn table(self, alloc: Global) -> Result<FlowTable, NoMemory>
        requires { IsSumOfFew self }
        ensures { IfOk result (λ table. TellsSum self table.rows.items) }
    {
        netted(alloc, self.payments)
    }
}

/// The sum of flow tables, as a flow table.
pub fn net(alloc: Global, tables: &[FlowTable]) -> Result<FlowTable, NoMemory>
    requires few { length tables.now ≤ longest_file }
    requires summable { AreSummable tables.now }
    ensures { IfOk result (λ sum. IsSumOf tables.now sum.rows.items) }
{
    let mut sum = FlowSum::new(alloc);
    for table in tables {
        sum.add(alloc, table)?;
    }
    sum.table(alloc)
}
