#![tactic(auto)]
// Worked cases: what the rules answer to small inputs, proved of the definitions; the tests run many of them through the code.
ghost use Rattle.std.specs.Prelude.{◌≡◌, ◌+◌};
ghost use Rattle.cases.specs.Format.{FormatCases, format_count};
ghost use Rattle.cases.specs.Parts.{PartCases, part_count};

// The rules answer every worked case as it is listed. It answers how many there are.
pub fn worked_cases() -> usize
    ensures formats { FormatCases }
    ensures parts { PartCases }
    ensures count { result ≡ format_count + part_count }
{
    79
}

#[cfg(test)]
mod part_tests;
#[cfg(test)]
mod tests;
