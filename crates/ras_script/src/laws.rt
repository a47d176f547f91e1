//! The numbers of the grammar, in digits.

ghost use Rattle.std.specs.Prelude.{◌≡◌};
ghost use Rattle.ras_script.specs.declared.fields.TheConstants.{BANK_WORDS};
ghost use Rattle.ras_script.specs.declared.kinds.TheConstants.{LAST_CHANNEL};
ghost use Rattle.ras_script.specs.declared.number.TheConstants.{DECIMAL_DIGITS, HEXADECIMAL_DIGITS};
ghost use Rattle.ras_script.specs.declared.reader.TheConstants.{LONGEST_LINE, LONGEST_SCRIPT};
ghost use Rattle.ras_script.specs.declared.splitting.TheConstants.{HELD_WORDS};

/// The numbers behind the names that the definitions of lines and words use.
pub fn numbers_in_digits()
    ensures line { LONGEST_LINE ≡ 40000 }
    ensures script { LONGEST_SCRIPT ≡ 67108864 }
    ensures decimal { DECIMAL_DIGITS ≡ 20 }
    ensures hexadecimal { HEXADECIMAL_DIGITS ≡ 16 }
    ensures channel { LAST_CHANNEL ≡ 14 }
    ensures bank { BANK_WORDS ≡ 10 }
    ensures held { HELD_WORDS ≡ 13 }
{}
