// The laws, each as a clause of a function that does nothing.

ghost use Rattle.std.specs.Prelude.{◌≡◌, ℕ, ◌+◌, ◌*◌, ◌/◌, ◌%◌, ◌^◌, ◌<◌, ◌≤◌, Bool, List, ◌&&◌, ◌||◌, not, if◌then◌else◌, ◌++◌, length, take, drop, ℤ, pos, ◌+ℤ◌, ◌-ℤ◌, ◌*ℤ◌, neg_ℤ, unsigned_abs, int_lt, bit_and, bit_or, bit_xor, Decides, true};
ghost use Rattle.std.specs.Int.{int_rem_euclid};
ghost use Rattle.std.specs.Ordering.{int_eq};
ghost use Rattle.tcl_num.specs.Range.{InRange, wrapped};
ghost use Rattle.tcl_num.specs.Congruence.{Congruent};
ghost use Rattle.tcl_bits.specs.Value.{bit_value, unsigned_value, signed_value, word_value, number_bits};
ghost use Rattle.tcl_bits.specs.Circuit.{xor_bit, sum_bits, carry_out, flipped_bits, no_bits, difference_bits, borrow_out, negation_bits, product_bits, less_bit, equal_bit, extended_bits, range_bit, met_bits, chosen_bits, shifted_bits};
ghost use Rattle.tcl_bits.specs.Exactness.{full_product, full_shift, sum_fits, difference_fits, product_fits, shift_fits, cast_fits};

/// Lists of bits as numbers: their ranges, how they are joined, and which bits a number has.
pub fn value_laws()
    ensures unsigned_range { (xs : List Bool) → unsigned_value xs < 2 ^ length xs }
    ensures word_range { (signed : Bool) (xs : List Bool) → 0 < length xs
        → InRange signed (length xs) (word_value signed xs) }
    ensures pattern { (signed : Bool) (xs : List Bool)
        → int_rem_euclid (word_value signed xs) (pos (2 ^ length xs))
        ≡ pos (unsigned_value xs) }
    ensures same_bits { (signed : Bool) (xs ys : List Bool) → length xs ≡ length ys
        → word_value signed xs ≡ word_value signed ys
        → xs ≡ ys }
    ensures lowest_bits { (width n : ℕ) → unsigned_value (number_bits width n) ≡ n % 2 ^ width }
    ensures own_bits { (xs : List Bool) → number_bits (length xs) (unsigned_value xs) ≡ xs }
    ensures constant { (signed : Bool) (width : ℕ) (n : ℤ) → 0 < width
        → word_value signed (number_bits width (unsigned_abs (int_rem_euclid n (pos (2 ^ width)))))
        ≡ wrapped signed width n }
    ensures wrapped_bits { (signed : Bool) (xs : List Bool) (n : ℤ) → 0 < length xs
        → Congruent (pos (2 ^ length xs)) n (pos (unsigned_value xs))
        → word_value signed xs ≡ wrapped signed (length xs) n }
{}

/// The adder, the difference with borrow and the negation: what their bits and carries are, and the wrapped
/// values of words.
pub fn sum_laws()
    ensures sum { (xs ys : List Bool) (carry : Bool) → length xs ≡ length ys
        → unsigned_value (sum_bits xs ys carry) + 2 ^ length xs * bit_value (carry_out xs ys carry)
        ≡ unsigned_value xs + unsigned_value ys + bit_value carry }
    ensures difference { (xs ys : List Bool) (borrow : Bool) → length xs ≡ length ys
        → unsigned_value (difference_bits xs ys borrow) + unsigned_value ys + bit_value borrow
        ≡ unsigned_value xs + 2 ^ length xs * bit_value (borrow_out xs ys borrow) }
    ensures negation { (xs : List Bool)
        → unsigned_value (negation_bits xs) + unsigned_value xs
        ≡ 2 ^ length xs * bit_value (not (carry_out (no_bits (length xs)) (flipped_bits xs) true)) }
    ensures flipped { (xs : List Bool)
        → unsigned_value (flipped_bits xs) + unsigned_value xs + 1 ≡ 2 ^ length xs }
    ensures sum_of_words { (signed : Bool) (xs ys : List Bool) (carry : Bool) → length xs ≡ length ys
        → 0 < length xs
        → word_value signed (sum_bits xs ys carry)
        ≡ wrapped signed (length xs) ((word_value signed xs +ℤ word_value signed ys) +ℤ pos (bit_value carry)) }
    ensures difference_of_words { (signed : Bool) (xs ys : List Bool) (borrow : Bool) → length xs ≡ length ys
        → 0 < length xs
        → word_value signed (difference_bits xs ys borrow)
        ≡ wrapped signed (length xs) ((word_value signed xs -ℤ word_value signed ys) -ℤ pos (bit_value borrow)) }
    ensures negated_word { (signed : Bool) (xs : List Bool) → 0 < length xs
        → word_value signed (negation_bits xs)
        ≡ wrapped signed (length xs) (neg_ℤ (word_value signed xs)) }
    ensures flipped_word { (signed : Bool) (xs : List Bool) → 0 < length xs
        → word_value signed (flipped_bits xs)
        ≡ wrapped signed (length xs) (neg_ℤ (word_value signed xs) -ℤ pos 1) }
{}

/// The product by rows: up to what goes above the width it is the product, and at twice the width it is exact.
pub fn product_laws()
    ensures product { (xs ys : List Bool) → length ys ≤ length xs
        → (k : ℕ) × (unsigned_value (product_bits xs ys) + 2 ^ length xs * k ≡ unsigned_value xs * unsigned_value ys) }
    ensures product_of_words { (signed : Bool) (xs ys : List Bool) → length xs ≡ length ys → 0 < length xs
        → word_value signed (product_bits xs ys)
        ≡ wrapped signed (length xs) (word_value signed xs *ℤ word_value signed ys) }
    ensures full_product { (signed : Bool) (xs ys : List Bool) → length xs ≡ length ys → 0 < length xs
        → word_value signed (full_product signed xs ys)
        ≡ word_value signed xs *ℤ word_value signed ys }
{}

/// The less chain and the equal chain decide the order and the equality of the values.
pub fn comparison_laws()
    ensures less { (signed : Bool) (xs ys : List Bool) → length xs ≡ length ys
        → less_bit signed xs ys ≡ int_lt (word_value signed xs) (word_value signed ys) }
    ensures equal { (signed : Bool) (xs ys : List Bool) → length xs ≡ length ys
        → equal_bit xs ys ≡ int_eq (word_value signed xs) (word_value signed ys) }
{}

/// Words at other widths: extension, low bits, shifts, cutting at a bit and joining.
pub fn width_laws()
    ensures extended { (signed : Bool) (width : ℕ) (xs : List Bool) → length xs ≤ width
        → word_value signed (extended_bits signed width xs) ≡ word_value signed xs }
    ensures at_another_width { (from to : Bool) (width : ℕ) (xs : List Bool) → 0 < width
        → word_value to (extended_bits from width xs)
        ≡ wrapped to width (word_value from xs) }
    ensures low_bits { (from to : Bool) (n : ℕ) (xs : List Bool) → 0 < n → n ≤ length xs
        → word_value to (take n xs) ≡ wrapped to n (word_value from xs) }
    ensures cut_low { (n : ℕ) (xs : List Bool)
        → unsigned_value (take n xs) ≡ unsigned_value xs % 2 ^ n }
    ensures cut_high { (n : ℕ) (xs : List Bool)
        → unsigned_value (drop n xs) ≡ unsigned_value xs / 2 ^ n }
    ensures split { (signed : Bool) (n : ℕ) (xs : List Bool) → n < length xs
        → word_value signed xs
        ≡ pos (unsigned_value (take n xs)) +ℤ pos (2 ^ n) *ℤ word_value signed (drop n xs) }
    ensures join { (signed : Bool) (low high : List Bool) → 0 < length high
        → word_value signed (low ++ high)
        ≡ pos (unsigned_value low) +ℤ pos (2 ^ length low) *ℤ word_value signed high }
    ensures shifted { (signed : Bool) (count : ℕ) (xs : List Bool) → count ≤ length xs → 0 < length xs
        → word_value signed (shifted_bits count xs)
        ≡ wrapped signed (length xs) (word_value signed xs *ℤ pos (2 ^ count)) }
    ensures fully_shifted { (signed : Bool) (count : ℕ) (xs : List Bool) → 0 < length xs
        → word_value signed (full_shift signed count xs)
        ≡ word_value signed xs *ℤ pos (2 ^ count) }
{}

/// Bitwise operations are those on the unsigned patterns, and a choice bit by bit is one of the two words.
pub fn bitwise_laws()
    ensures and { (xs ys : List Bool) → length xs ≡ length ys
        → unsigned_value (met_bits ◌&&◌ xs ys)
        ≡ bit_and (unsigned_value xs) (unsigned_value ys) }
    ensures or { (xs ys : List Bool) → length xs ≡ length ys
        → unsigned_value (met_bits ◌||◌ xs ys)
        ≡ bit_or (unsigned_value xs) (unsigned_value ys) }
    ensures xor { (xs ys : List Bool) → length xs ≡ length ys
        → unsigned_value (met_bits xor_bit xs ys)
        ≡ bit_xor (unsigned_value xs) (unsigned_value ys) }
    ensures and_of_words { (signed : Bool) (xs ys : List Bool) → length xs ≡ length ys → 0 < length xs
        → word_value signed (met_bits ◌&&◌ xs ys)
        ≡ wrapped signed (length xs) (pos (bit_and (unsigned_value xs) (unsigned_value ys))) }
    ensures or_of_words { (signed : Bool) (xs ys : List Bool) → length xs ≡ length ys → 0 < length xs
        → word_value signed (met_bits ◌||◌ xs ys)
        ≡ wrapped signed (length xs) (pos (bit_or (unsigned_value xs) (unsigned_value ys))) }
    ensures xor_of_words { (signed : Bool) (xs ys : List Bool) → length xs ≡ length ys → 0 < length xs
        → word_value signed (met_bits xor_bit xs ys)
        ≡ wrapped signed (length xs) (pos (bit_xor (unsigned_value xs) (unsigned_value ys))) }
    ensures choice { (chosen : Bool) (xs ys : List Bool) → length xs ≡ length ys
        → chosen_bits chosen xs ys ≡ (if chosen then xs else ys) }
{}

/// The range test decides whether a value lies in the range of a narrower type.
pub fn range_laws()
    ensures range { (signed : Bool) (width : ℕ) (xs : List Bool) → 0 < width → width ≤ length xs
        → Decides (range_bit signed width xs) (InRange signed width (word_value signed xs)) }
    ensures range_of_signed { (signed : Bool) (width : ℕ) (xs : List Bool) → 0 < width → width < length xs
        → Decides (range_bit signed width xs) (InRange signed width (signed_value xs)) }
{}

/// A result that is made again from extended operands tells whether the integer result lies in the range of the
/// type.
pub fn exactness_laws()
    ensures sum { (signed : Bool) (xs ys : List Bool) (carry : Bool) → length xs ≡ length ys
        → 0 < length xs
        → Decides (sum_fits signed xs ys carry)
        (InRange signed (length xs) ((word_value signed xs +ℤ word_value signed ys) +ℤ pos (bit_value carry))) }
    ensures difference { (signed : Bool) (xs ys : List Bool) (borrow : Bool) → length xs ≡ length ys
        → 0 < length xs
        → Decides (difference_fits signed xs ys borrow)
        (InRange signed (length xs) ((word_value signed xs -ℤ word_value signed ys) -ℤ pos (bit_value borrow))) }
    ensures product { (signed : Bool) (xs ys : List Bool) → length xs ≡ length ys → 0 < length xs
        → Decides (product_fits signed xs ys)
        (InRange signed (length xs) (word_value signed xs *ℤ word_value signed ys)) }
    ensures shift { (signed : Bool) (count : ℕ) (xs : List Bool) → 0 < length xs
        → Decides (shift_fits signed count xs)
        (InRange signed (length xs) (word_value signed xs *ℤ pos (2 ^ count))) }
    ensures cast { (from to : Bool) (width : ℕ) (xs : List Bool) → 0 < width
        → Decides (cast_fits from to width xs) (InRange to width (word_value from xs)) }
{}
