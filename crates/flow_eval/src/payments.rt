//! Single payments.

ghost use Rattle.std.specs.Prelude.{◌≡◌, ◌≤◌, ◌*ℤ◌, ◌++◌, neg_ℤ, OnOk, length, take, drop};
ghost use Rattle.flow_eval.specs.Tables.{FitsLine};
ghost use Rattle.flow_eval.specs.Payments.{CanBeMultiplied, HasRoomToSum, multiplied, paid, payment_on, times};

use crate::flow_table::Slot;
use decimal::NoMemory;

/// One unit of an asset from one party to another.
#[derive(Clone, Copy, Debug, PartialEq, Eq)]
pub struct Transfer {
    pub asset: u32,
    pub from: u32,
    pub to: u32,
}

/// An amount from the lower party to the higher one, or back where it is negative.
#[derive(Clone, Copy, Debug, PartialEq, Eq)]
pub struct Payment {
    pub slot: Slot,
    pub amount: i128,
}

/// The negative of an amount.
pub fn opposite(amount: i128) -> i128
    requires { FitsLine amount }
    ensures { result ≡ neg_ℤ amount }
{
    -amount
}

/// The payment of an amount by a transfer on a day.
pub fn payment_on(day: i64, transfer: Transfer, amount: i128) -> Payment
    requires { HasRoomToSum amount }
    ensures { result ≡ payment_on day transfer amount }
{
    Payment {
        slot: Slot {
            day,
            asset: transfer.asset,
            lower: transfer.from.min(transfer.to),
            higher: transfer.from.max(transfer.to),
        },
        amount: if transfer.from < transfer.to {
            amount
        } else {
            opposite(amount)
        },
    }
}

/// Notes a payment between two different parties on a day that counts.
pub fn pay(
    out: &mut Vec<Payment>,
    until: i64,
    day: i64,
    transfer: Transfer,
    amount: i128,
) -> Result<(), NoMemory>
    requires { HasRoomToSum amount }
    ensures { OnOk result (out.new.items ≡ out.old.items ++ paid until day transfer amount) }
{
    if until < day || transfer.from == transfer.to {
        return Ok(());
    }
    out.push(payment_on(day, transfer, amount))?;
    Ok(())
}

// A payment times a factor.
fn times(payment: Payment, factor: i128) -> Payment
    requires { HasRoomToSum (payment.amount *ℤ factor) }
    ensures { result ≡ times factor payment }
{
    Payment {
        slot: payment.slot,
        amount: payment.amount * factor,
    }
}

// Multiplies payments by a factor.
fn multiply(payments: &mut [Payment], factor: i128)
    requires { CanBeMultiplied factor payments.old }
    ensures { payments.new ≡ multiplied factor payments.old }
{
    for payment in payments.iter_mut() {
        *payment = times(*payment, factor);
    }
}

/// Multiplies the payments from the one at `first` on by a factor.
pub fn multiply_from(out: &mut Vec<Payment>, first: usize, factor: i128)
    requires first { first ≤ length out.old.items }
    requires small { CanBeMultiplied factor (drop first out.old.items) }
    ensures { out.new.items ≡ take first out.old.items
        ++ multiplied factor (drop first out.old.items) }
{
    multiply(&mut out[first..], factor);
}
