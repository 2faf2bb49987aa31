//! How large a part of payoff code is, from the sizes of its own parts, and the limits of the rule
//! on sizes. Parts are within the limits before their whole is made, and day counts are below 2^32,
//! so that no number leaves its integer.

ghost use Rattle.std.specs.Prelude.{◌≡◌, ◌+◌, ◌≤◌, ◌<◌, IfOk, IfErr};
ghost use Rattle.term_model.specs.Limits.{most_days};

use term_model::{MOST_DAYS, MOST_HEIGHT_OF_CODE, MOST_NODES_OF_CODE, MOST_WORK};

/// A value expression's longest path, counted in nodes; its nodes; and the steps in which it is
/// evaluated.
#[derive(Clone, Copy)]
pub struct ValueSize {
    pub height: u32,
    pub nodes: u32,
    pub work: u64,
}

impl ValueSize {
    ghost use Rattle.payoff_check.specs.SizeTrials.{IsLimited, dated, leaf, limited};
    ghost use Rattle.payoff_check.specs.SizeTrials.{over_days, over_one, over_three, over_two};

    /// A value expression without parts.
    pub fn leaf() -> ValueSize
        ensures { result ≡ leaf }
    {
        ValueSize {
            height: 1,
            nodes: 1,
            work: 1,
        }
    }

    /// An observable, by whether its date is within its range.
    pub fn dated(in_range: bool) -> Result<ValueSize, u32>
        ensures size { result ≡ dated in_range }
        ensures limits { IfOk result IsLimited }
        ensures here { IfErr result (λ node. node ≡ 0) }
    {
        if in_range {
            Ok(ValueSize::leaf())
        } else {
            Err(0)
        }
    }

    /// An operator on one operand.
    pub fn over_one(self) -> ValueSize
        requires { IsLimited self }
        ensures { result ≡ over_one self }
    {
        ValueSize {
            height: self.height + 1,
            nodes: self.nodes + 1,
            work: 1 + self.work,
        }
    }

    /// An operator on two operands.
    pub fn over_two(self, right: ValueSize) -> ValueSize
        requires left { IsLimited self }
        requires right { IsLimited right }
        ensures { result ≡ over_two self right }
    {
        ValueSize {
            height: self.height.max(right.height) + 1,
            nodes: self.nodes + right.nodes + 1,
            work: 1 + (self.work + right.work),
        }
    }

    /// A choice by a test of this size.
    pub fn over_three(self, yes: ValueSize, no: ValueSize) -> ValueSize
        requires test { IsLimited self }
        requires yes { IsLimited yes }
        requires no { IsLimited no }
        ensures { result ≡ over_three self yes no }
    {
        ValueSize {
            height: self.height.max(yes.height.max(no.height)) + 1,
            nodes: self.nodes + yes.nodes + no.nodes + 1,
            work: 1 + (self.work + yes.work + no.work),
        }
    }

    /// An accumulator over some days with a body of this size.
    pub fn over_days(self, days: u32, first: ValueSize) -> ValueSize
        requires body { IsLimited self }
        requires first { IsLimited first }
        ensures { result ≡ over_days self days first }
    {
        ValueSize {
            height: self.height.max(first.height) + 1,
            nodes: self.nodes + first.nodes + 1,
            work: 1 + (first.work + days as u64 * self.work),
        }
    }

    /// This size, where a part of it and of this count of days is within the limits, else a fault
    /// at the part's own node.
    pub fn limited(self, days: u32) -> Result<ValueSize, u32>
        ensures size { result ≡ limited days self }
        ensures limits { IfOk result IsLimited }
        ensures here { IfErr result (λ node. node ≡ 0) }
    {
        if self.height <= MOST_HEIGHT_OF_CODE
            && self.nodes <= MOST_NODES_OF_CODE
            && self.work <= MOST_WORK as u64
            && days <= MOST_DAYS
        {
            Ok(self)
        } else {
            Err(0)
        }
    }
}

/// Code's longest path, counted in nodes; its nodes; the steps in which it is evaluated; and how
/// many days its loops move the base at most, one within another.
#[derive(Clone, Copy)]
pub struct CodeSize {
    pub height: u32,
    pub nodes: u32,
    pub work: u64,
    pub days: u32,
}

impl CodeSize {
    ghost use Rattle.payoff_check.specs.SizeTrials.{IsLimited, IsLimitedCode, behind, limited_code};
    ghost use Rattle.payoff_check.specs.SizeTrials.{looped, over, together, unit};

    /// Code without parts.
    pub fn unit() -> CodeSize
        ensures { result ≡ unit }
    {
        CodeSize {
            height: 1,
            nodes: 1,
            work: 0,
            days: 0,
        }
    }

    /// Two parts together.
    pub fn together(self, right: CodeSize) -> CodeSize
        requires left { IsLimitedCode self }
        requires right { IsLimitedCode right }
        ensures { result ≡ together self right }
    {
        CodeSize {
            height: self.height.max(right.height) + 1,
            nodes: self.nodes + right.nodes + 1,
            work: self.work + right.work,
            days: self.days.max(right.days),
        }
    }

    /// A part behind a value expression.
    pub fn behind(self, value: ValueSize) -> CodeSize
        requires body { IsLimitedCode self }
        requires value { IsLimited value }
        ensures { result ≡ behind value self }
    {
        CodeSize {
            height: value.height.max(self.height) + 1,
            nodes: value.nodes + self.nodes + 1,
            work: value.work + self.work,
            days: self.days,
        }
    }

    /// A part under a `cut`.
    pub fn over(self) -> CodeSize
        requires { IsLimitedCode self }
        ensures { result ≡ over self }
    {
        CodeSize {
            height: self.height + 1,
            nodes: self.nodes + 1,
            work: self.work,
            days: self.days,
        }
    }

    /// A `loop` whose test is tried on the days up to a last one, with this part entered on its
    /// days.
    pub fn looped(self, test: ValueSize, upto: u32, miss: CodeSize) -> CodeSize
        requires hit { IsLimitedCode self }
        requires test { IsLimited test }
        requires upto { upto ≤ most_days }
        requires miss { IsLimitedCode miss }
        ensures { result ≡ looped test upto self miss }
    {
        CodeSize {
            height: test.height.max(self.height.max(miss.height)) + 1,
            nodes: test.nodes + self.nodes + miss.nodes + 1,
            work: (upto as u64 + 1) * test.work + self.work + miss.work,
            days: (upto + self.days).max(miss.days),
        }
    }

    /// This size, where it is within the limits, else a fault at its node.
    pub fn limited(self, node: u32) -> Result<CodeSize, u32>
        ensures size { result ≡ limited_code self node }
        ensures limits { IfOk result IsLimitedCode }
        ensures nodes { IfOk result (λ size. size.nodes ≡ self.nodes) }
    {
        if self.height <= MOST_HEIGHT_OF_CODE
            && self.nodes <= MOST_NODES_OF_CODE
            && self.work <= MOST_WORK as u64
            && self.days <= MOST_DAYS
        {
            Ok(self)
        } else {
            Err(node)
        }
    }
}
