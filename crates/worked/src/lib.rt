// The worked examples: one table, proved against the definitions that every contract cites.
#![tactic(auto)]

ghost use Rattle.std.specs.Prelude.{◌≡◌, length};
ghost use Rattle.std.specs.List.{AllByRecursion};
ghost use Rattle.worked.specs.Table.{table, Right};

pub mod example;

// How many examples the table has; each is right.
pub fn rows() -> usize
    ensures right { AllByRecursion Right table }
    ensures count { result ≡ length table }
{
    16
}
