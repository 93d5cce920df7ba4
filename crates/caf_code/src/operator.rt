ghost use Rattle.std.specs.Prelude.{◌≡◌};
ghost use Rattle.caf_base.specs.ImageMemory.{ImageMemory};
ghost use Rattle.caf_base.specs.declared.fence.FenceClear.{FenceClear};
ghost use Rattle.caf_code.specs.Numbers.{One, Two, binary_instr, does_operator, unary_instr};
ghost use Rattle.caf_code.specs.Step.{does};
ghost use Rattle.caf_code.specs.Task.{Task};
ghost use Rattle.caf_code.specs.declared.listing.Listing.{Listing};

use crate::{Arithmetic, Instr, Logical, Relation};
use caf_base::{BinaryOperator, UnaryOperator};

impl Instr {
    /// The instruction that puts an operator's result in place of its operand.
    pub fn unary(operator: UnaryOperator) -> Instr
        ensures same { result ≡ unary_instr operator }
        ensures applies { (code : Listing) (clear : FenceClear) (t : Task) (m : ImageMemory) → does code clear result t m ≡ does_operator (One operator) t m }
    {
        match operator {
            UnaryOperator::Negate => Instr::Arithmetic(Arithmetic::Negate),
            UnaryOperator::Absolute => Instr::Arithmetic(Arithmetic::Absolute),
            UnaryOperator::Not => Instr::Logical(Logical::Not),
        }
    }

    /// The instruction that puts an operator's result in place of its two operands, of which the second is on the top.
    pub fn binary(operator: BinaryOperator) -> Instr
        ensures same { result ≡ binary_instr operator }
        ensures applies { (code : Listing) (clear : FenceClear) (t : Task) (m : ImageMemory) → does code clear result t m ≡ does_operator (Two operator) t m }
    {
        match operator {
            BinaryOperator::Add => Instr::Arithmetic(Arithmetic::Add),
            BinaryOperator::Subtract => Instr::Arithmetic(Arithmetic::Subtract),
            BinaryOperator::Multiply => Instr::Arithmetic(Arithmetic::Multiply),
            BinaryOperator::Divide => Instr::Arithmetic(Arithmetic::Divide),
            BinaryOperator::Modulo => Instr::Arithmetic(Arithmetic::Modulo),
            BinaryOperator::Minimum => Instr::Arithmetic(Arithmetic::Minimum),
            BinaryOperator::Maximum => Instr::Arithmetic(Arithmetic::Maximum),
            BinaryOperator::Equal => Instr::Relation(Relation::Equal),
            BinaryOperator::NotEqual => Instr::Relation(Relation::NotEqual),
            BinaryOperator::Less => Instr::Relation(Relation::Less),
            BinaryOperator::LessEqual => Instr::Relation(Relation::LessEqual),
            BinaryOperator::Greater => Instr::Relation(Relation::Greater),
            BinaryOperator::GreaterEqual => Instr::Relation(Relation::GreaterEqual),
            BinaryOperator::And => Instr::Logical(Logical::And),
            BinaryOperator::Or => Instr::Logical(Logical::Or),
            BinaryOperator::Equivalent => Instr::Logical(Logical::Equivalent),
            BinaryOperator::NotEquivalent => Instr::Logical(Logical::NotEquivalent),
        }
    }
}
