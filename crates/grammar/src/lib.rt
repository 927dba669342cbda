// The operators and functions of document 01's expressions. Derivation trees and the code that
// works values out name the same ones, so nothing has to be translated between the two.
#![tactic(auto)]

#[derive(Clone, Copy)]
pub enum Op {
    Add,
    Sub,
    Mul,
    Div,
    Mod,
    And,
    Or,
    Xor,
}

#[derive(Clone, Copy)]
pub enum Func {
    Abs,
    Fix,
    Fup,
    Round,
}
