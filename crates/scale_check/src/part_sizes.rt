//! How large a part of a contract is, from the sizes of its own parts, and the limits of the rule
//! on sizes. Parts are within the limits before their whole is made, and day counts are below 2^32,
//! so that no number leaves its integer.

ghost use Rattle.std.specs.Prelude.{◌≡◌, ◌+◌, ◌<◌, ◌^◌, IfOk, IfErr};
ghost use Rattle.term_model.specs.Sizes.{days_before};

use term_model::{MOST_DAYS, MOST_HEIGHT, MOST_NODES, MOST_REACH_AND_PAST, MOST_WORK};

/// A part's longest path, counted in nodes; its nodes; the days by which its latest part may stand
/// later; the days before its own that it may read; and the steps in which it is evaluated.
#[derive(Clone, Copy)]
pub struct Size {
    pub height: u64,
    pub nodes: u64,
    pub reach: u64,
    pub past: u64,
    pub work: u64,
}

impl Size {
    ghost use Rattle.scale_check.specs.PartSizes.{IsLimited, is_within, limited};
    ghost use Rattle.scale_check.specs.PartSizes.{delayed, leaf, over_days, over_one, over_three};
    ghost use Rattle.scale_check.specs.PartSizes.{over_two, tested, together, unit};

    /// A contract without parts.
    pub fn unit() -> Size
        ensures { result ≡ unit }
    {
        Size {
            height: 1,
            nodes: 1,
            reach: 0,
            past: 0,
            work: 0,
        }
    }

    /// An expression without parts, which reads so many days before its own.
    pub fn leaf(past: u64) -> Size
        ensures { result ≡ leaf past }
    {
        Size {
            height: 1,
            nodes: 1,
            reach: 0,
            past,
            work: 1,
        }
    }

    /// An operator on one operand.
    pub fn over_one(part: Size) -> Size
        requires { IsLimited part }
        ensures { result ≡ over_one part }
    {
        Size {
            height: part.height + 1,
            nodes: part.nodes + 1,
            reach: 0,
            past: part.past,
            work: 1 + part.work,
        }
    }

    /// An operator on two operands.
    pub fn over_two(left: Size, right: Size) -> Size
        requires left { IsLimited left }
        requires right { IsLimited right }
        ensures { result ≡ over_two left right }
    {
        Size {
            height: left.height.max(right.height) + 1,
            nodes: left.nodes + right.nodes + 1,
            reach: 0,
            past: left.past.max(right.past),
            work: 1 + (left.work + right.work),
        }
    }

    /// An operator on three operands.
    pub fn over_three(test: Size, yes: Size, no: Size) -> Size
        requires test { IsLimited test }
        requires yes { IsLimited yes }
        requires no { IsLimited no }
        ensures { result ≡ over_three test yes no }
    {
        Size {
            height: test.height.max(yes.height.max(no.height)) + 1,
            nodes: test.nodes + yes.nodes + no.nodes + 1,
            reach: 0,
            past: test.past.max(yes.past.max(no.past)),
            work: 1 + (test.work + yes.work + no.work),
        }
    }

    /// An accumulator: its start stands all its days before it, and its body takes one step on
    /// each.
    pub fn over_days(body: Size, days: u32, first: Size) -> Size
        requires body { IsLimited body }
        requires first { IsLimited first }
        ensures { result ≡ over_days body days first }
    {
        let count = days as u64;
        Size {
            height: body.height.max(first.height) + 1,
            nodes: body.nodes + first.nodes + 1,
            reach: 0,
            past: (first.past + count).max(body.past + count.saturating_sub(1)),
            work: 1 + (first.work + count * body.work),
        }
    }

    /// Two parts of a contract that stand on one day, of which the first may be an expression.
    pub fn together(left: Size, right: Size) -> Size
        requires left { IsLimited left }
        requires right { IsLimited right }
        ensures { result ≡ together left right }
    {
        Size {
            height: left.height.max(right.height) + 1,
            nodes: left.nodes + right.nodes + 1,
            reach: left.reach.max(right.reach),
            past: left.past.max(right.past),
            work: left.work + right.work,
        }
    }

    /// A contract some days later.
    pub fn delayed(days: u32, body: Size) -> Size
        requires { IsLimited body }
        ensures { result ≡ delayed days body }
    {
        Size {
            height: body.height + 1,
            nodes: body.nodes + 1,
            reach: days as u64 + body.reach,
            past: body.past,
            work: body.work,
        }
    }

    /// A test that is tried on each day up to some days on, and a contract for each outcome.
    pub fn tested(test: Size, days: u32, hit: Size, miss: Size) -> Size
        requires test { IsLimited test }
        requires hit { IsLimited hit }
        requires miss { IsLimited miss }
        ensures { result ≡ tested test days hit miss }
    {
        let count = days as u64;
        Size {
            height: test.height.max(hit.height.max(miss.height)) + 1,
            nodes: test.nodes + hit.nodes + miss.nodes + 1,
            reach: count + hit.reach.max(miss.reach),
            past: test.past.max(hit.past.max(miss.past)),
            work: (count + 1) * test.work + hit.work + miss.work,
        }
    }

    /// The reach as a count of days.
    pub fn reach_in_days(self) -> u32
        requires { IsLimited self }
        ensures { result ≡ self.reach }
    {
        self.reach as u32
    }

    /// Whether a part of this size, and of this count of days, is within the limits.
    fn is_within(self, days: u32) -> bool
        requires { self.past < 2 ^ 63 }
        ensures { result ≡ is_within days self }
    {
        self.height <= MOST_HEIGHT as u64
            && self.nodes <= MOST_NODES as u64
            && days <= MOST_DAYS
            && self.reach <= MOST_DAYS as u64
            && self.reach + self.past <= MOST_REACH_AND_PAST as u64
            && self.work <= MOST_WORK as u64
    }

    /// This size, where a part of it and of this count of days is within the limits, else a fault
    /// at the part's own node.
    pub fn limited(self, days: u32) -> Result<Size, u32>
        requires { self.past < 2 ^ 63 }
        ensures size { result ≡ limited days self }
        ensures limits { IfOk result IsLimited }
        ensures here { IfErr result (λ node. node ≡ 0) }
    {
        if self.is_within(days) {
            Ok(self)
        } else {
            Err(0)
        }
    }
}

/// How many days before today an offset lies.
pub fn days_back(offset: i32) -> u64
    ensures days { result ≡ days_before offset }
    ensures few { result < 2 ^ 63 }
{
    if offset < 0 {
        offset.unsigned_abs() as u64
    } else {
        0
    }
}
