//! One contract that is tried: its verdict, and what stops a command that uses one that is not
//! accepted.

ghost use Rattle.std.specs.Prelude.{IfOk, ◌≡◌};
ghost use Rattle.term_model.specs.Declarations.{declarations};
ghost use Rattle.term_model.specs.Terms.{contract};
ghost use Rattle.used_contracts.specs.AcceptingParts.{AnswersAcceptedOne, IsVerdictOf};
ghost use Rattle.used_contracts.specs.ChoosingParts.{refused_fault};
ghost use Rattle.used_contracts.specs.UsedParts.{IsTriable};

use command_courses::Stop;
use contract_check::{Facts, check};
use decimal::NoMemory;
use report::Fault;
use std::alloc::Global;
use term_model::{CheckErr, Contr, Decls, Name, RuleFault};

/// The facts of a contract, or the rule that refuses it.
pub fn verdict(
    alloc: Global,
    decls: &Decls,
    contr: &Contr,
) -> Result<Result<Facts, RuleFault>, NoMemory>
    requires { IsTriable (declarations decls.now) (contract contr.now) }
    ensures { IfOk result (IsVerdictOf (declarations decls.now) (contract contr.now)) }
{
    match check(alloc, decls, contr) {
        Ok(facts) => Ok(Ok(facts)),
        Err(CheckErr::Refused { rule, node }) => Ok(Err(RuleFault { rule, node })),
        Err(CheckErr::NoMemory) => Err(NoMemory),
    }
}

/// The fault of a contract that is not accepted.
pub fn refusal(alloc: Global, name: &[u8], fault: RuleFault) -> Result<Fault, NoMemory>
    ensures { IfOk result (λ f. f ≡ refused_fault name.now fault) }
{
    let name = Name::new(alloc, name)?;
    Ok(Fault::Refused {
        name,
        rule: fault.rule,
        node: fault.node,
    })
}

/// Stops at a contract of a name that is not accepted.
pub fn accept_named(alloc: Global, decls: &Decls, name: &[u8], contr: &Contr) -> Result<(), Stop>
    requires { IsTriable (declarations decls.now) (contract contr.now) }
    ensures { AnswersAcceptedOne (declarations decls.now) (name.now, contract contr.now) result }
{
    match verdict(alloc, decls, contr)? {
        Ok(_) => Ok(()),
        Err(fault) => {
            let refused = refusal(alloc, name, fault)?;
            Err(Stop::Fault(refused))
        }
    }
}
