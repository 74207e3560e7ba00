// The printers between leaves and tokens: strings, imports, expressions with their arguments, and operands.
#![tactic(auto)]

pub mod expression;
pub mod imports;
pub mod operand;
pub mod strings;
