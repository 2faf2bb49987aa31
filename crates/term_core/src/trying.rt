//! Where a node at fault stands. The trial of a part counts from the part's own first node, and the
//! whole from its own: so what a part answers is moved behind the nodes that stand before it, which
//! are counted only where there is a fault.

ghost use Rattle.std.specs.Prelude.{◌≡◌, ◌<◌, ◌+◌, ◌^◌, IfErr};
ghost use Rattle.term_model.specs.Terms.{expression, contract};
ghost use Rattle.term_model.specs.Sizes.{nodes, nodes_of_contract};
ghost use Rattle.term_core.specs.Trying.{moved};

use crate::nodes::{nodes_in, nodes_in_contract};
use term_model::{Contr, Expr};

/// The answer of the part that follows its node.
pub fn behind_node<T>(answer: Result<T, u32>) -> Result<T, u32>
    requires { IfErr answer (λ node. 1 + node < 2 ^ 32) }
    ensures { result ≡ moved 1 answer }
{
    match answer {
        Ok(found) => Ok(found),
        Err(node) => Err(1 + node),
    }
}

/// The answer of the part that follows an expression.
pub fn behind<T>(before: &Expr, answer: Result<T, u32>) -> Result<T, u32>
    requires small { nodes (expression before.now) < 2 ^ 32 }
    requires room { IfErr answer (λ node. 1 + nodes (expression before.now) + node < 2 ^ 32) }
    ensures { result ≡ moved (1 + nodes (expression before.now)) answer }
{
    match answer {
        Ok(found) => Ok(found),
        Err(node) => Err(1 + nodes_in(before) + node),
    }
}

/// The answer of the part that follows two expressions.
pub fn behind_two<T>(first: &Expr, second: &Expr, answer: Result<T, u32>) -> Result<T, u32>
    requires small { nodes (expression first.now) + nodes (expression second.now) < 2 ^ 32 }
    requires room { IfErr answer (λ node. nodes (expression first.now) + (1 + nodes (expression second.now) + node) < 2 ^ 32) }
    ensures { result ≡ moved (nodes (expression first.now)) (moved (1 + nodes (expression second.now)) answer) }
{
    match answer {
        Ok(found) => Ok(found),
        Err(node) => Err(nodes_in(first) + (1 + nodes_in(second) + node)),
    }
}

/// The answer of the part that follows a contract.
pub fn behind_contract<T>(before: &Contr, answer: Result<T, u32>) -> Result<T, u32>
    requires small { nodes_of_contract (contract before.now) < 2 ^ 32 }
    requires room { IfErr answer (λ node. 1 + nodes_of_contract (contract before.now) + node < 2 ^ 32) }
    ensures { result ≡ moved (1 + nodes_of_contract (contract before.now)) answer }
{
    match answer {
        Ok(found) => Ok(found),
        Err(node) => Err(1 + nodes_in_contract(before) + node),
    }
}

/// The answer of the part that follows an expression and a contract.
pub fn behind_both<T>(test: &Expr, hit: &Contr, answer: Result<T, u32>) -> Result<T, u32>
    requires small { nodes (expression test.now) + nodes_of_contract (contract hit.now) < 2 ^ 32 }
    requires room { IfErr answer (λ node. nodes (expression test.now) + (1 + nodes_of_contract (contract hit.now) + node) < 2 ^ 32) }
    ensures { result ≡ moved (nodes (expression test.now)) (moved (1 + nodes_of_contract (contract hit.now)) answer) }
{
    match answer {
        Ok(found) => Ok(found),
        Err(node) => Err(nodes_in(test) + (1 + nodes_in_contract(hit) + node)),
    }
}
