ghost use Rattle.std.specs.Prelude.{◌≡◌, ◌≢◌, pos};
ghost use Rattle.caf_base.specs.Arithmetic.{of_two, of_one, truth_of, iterations};

use crate::Trap;

/// An operator or intrinsic function of two numbers. As a logical, 0 is false and every other number is true.
#[derive(Clone, Copy, Debug, PartialEq, Eq)]
pub enum BinaryOperator {
    Add,
    Subtract,
    Multiply,
    /// Truncates towards zero (ISO/IEC 1539-1:2018, 10.1.5.2.2).
    Divide,
    /// What is left of a division that truncates, with the sign of the first operand.
    Modulo,
    Minimum,
    Maximum,
    Equal,
    NotEqual,
    Less,
    LessEqual,
    Greater,
    GreaterEqual,
    And,
    Or,
    Equivalent,
    NotEquivalent,
}

impl BinaryOperator {
    /// The exact result where 64 bits with a sign hold it, else trap `Number`; trap `Divisor` at a zero divisor.
    pub fn apply(self, left: i64, right: i64) -> Result<i64, Trap>
        ensures { result ≡ of_two self left right }
    {
        match self {
            BinaryOperator::Add => left.checked_add(right).ok_or(Trap::Number),
            BinaryOperator::Subtract => left.checked_sub(right).ok_or(Trap::Number),
            BinaryOperator::Multiply => left.checked_mul(right).ok_or(Trap::Number),
            BinaryOperator::Divide => {
                if right == 0 {
                    Err(Trap::Divisor)
                } else {
                    left.checked_div(right).ok_or(Trap::Number)
                }
            }
            BinaryOperator::Modulo => {
                if right == 0 {
                    Err(Trap::Divisor)
                } else {
                    Ok(left.wrapping_rem(right))
                }
            }
            BinaryOperator::Minimum => Ok(left.min(right)),
            BinaryOperator::Maximum => Ok(left.max(right)),
            BinaryOperator::Equal => Ok(truth(left == right)),
            BinaryOperator::NotEqual => Ok(truth(left != right)),
            BinaryOperator::Less => Ok(truth(left < right)),
            BinaryOperator::LessEqual => Ok(truth(left <= right)),
            BinaryOperator::Greater => Ok(truth(right < left)),
            BinaryOperator::GreaterEqual => Ok(truth(right <= left)),
            BinaryOperator::And => Ok(truth(left != 0 && right != 0)),
            BinaryOperator::Or => Ok(truth(left != 0 || right != 0)),
            BinaryOperator::Equivalent => Ok(truth((left != 0) == (right != 0))),
            BinaryOperator::NotEquivalent => Ok(truth((left != 0) != (right != 0))),
        }
    }
}

/// An operator or intrinsic function of one number.
#[derive(Clone, Copy, Debug, PartialEq, Eq)]
pub enum UnaryOperator {
    Negate,
    Absolute,
    Not,
}

impl UnaryOperator {
    /// The exact result where 64 bits with a sign hold it, else trap `Number`.
    pub fn apply(self, operand: i64) -> Result<i64, Trap>
        ensures { result ≡ of_one self operand }
    {
        match self {
            UnaryOperator::Negate => operand.checked_neg().ok_or(Trap::Number),
            UnaryOperator::Absolute => operand.checked_abs().ok_or(Trap::Number),
            UnaryOperator::Not => Ok(truth(operand == 0)),
        }
    }
}

/// A logical as a number: 1 for true and 0 for false.
pub fn truth(value: bool) -> i64
    ensures { result ≡ truth_of value }
{
    if value { 1 } else { 0 }
}

/// The iteration count of a `do`, in exact numbers (ISO/IEC 1539-1:2018, 11.1.7.4.1). It may be 2^64.
pub fn iteration_count(first: i64, last: i64, step: i64) -> u128
    requires { step ≢ pos 0 }
    ensures { result ≡ iterations first last step }
{
    if (0 < step && last < first) || (step < 0 && first < last) {
        return 0;
    }
    let size = u128::from(step.unsigned_abs());
    (u128::from(last.abs_diff(first)) + size) / size
}
