//! Laws that hold of the definitions alone. Each is the contract of a function that does nothing.

ghost use Rattle.std.specs.Prelude.{◌≡◌, ℕ, ℤ, ◌<◌, ◌^◌, IsTrue, List, unsigned_abs};
ghost use Rattle.std.specs.Fmt.{signed_decimal};
ghost use Rattle.std.specs.List.{list_all};
ghost use Rattle.number_words.specs.Cost.{is_cost, spelled_cost, is_plain_cost, micro_text};
ghost use Rattle.number_words.specs.Line.{words_of_line, is_word, spaced};
ghost use Rattle.number_words.specs.Number.{is_number, number_of, is_plain_number, number_text};
ghost use Rattle.number_words.specs.Words.{words_of, words_in_lines, spaced_lines};

/// Each number and each cost has one plain spelling, words have one line of single spaces, and lines of
/// words have one text of such lines.
///
/// Numbers and costs are of any size. The text of std holds 64 digits: up to that it is the plain
/// spelling, and past it it drops the leading digits.
pub fn spelling()
    // A plain number is what is printed of its value, and what is printed is a plain number.
    ensures number { (w : List ℕ) → IsTrue (is_number w) → IsTrue (is_plain_number w) →
        number_text (number_of w) ≡ w }
    ensures is_number { (z : ℤ) → IsTrue (is_number (number_text z)) }
    ensures is_plain_number { (z : ℤ) → IsTrue (is_plain_number (number_text z)) }
    ensures number_back { (z : ℤ) → number_of (number_text z) ≡ z }
    ensures number_printed { (z : ℤ) → unsigned_abs z < 10 ^ 64 → number_text z ≡ signed_decimal z }

    // The same of costs.
    ensures cost { (w : List ℕ) → IsTrue (is_cost w) → IsTrue (is_plain_cost w) →
        micro_text (spelled_cost w) ≡ w }
    ensures is_cost { (n : ℕ) → IsTrue (is_cost (micro_text n)) }
    ensures is_plain_cost { (n : ℕ) → IsTrue (is_plain_cost (micro_text n)) }
    ensures cost_back { (n : ℕ) → spelled_cost (micro_text n) ≡ n }

    // The words of a line of words are those words, and so in a text of such lines.
    ensures words { (ws : List (List ℕ)) → IsTrue (list_all is_word ws) →
        words_of_line (spaced ws) ≡ ws }
    ensures lines { (lines : List (List (List ℕ))) → IsTrue (list_all (list_all is_word) lines) →
        words_of (spaced_lines lines) ≡ words_in_lines 1 lines }

    // What is printed is a word.
    ensures number_is_word { (z : ℤ) → IsTrue (is_word (number_text z)) }
    ensures cost_is_word { (n : ℕ) → IsTrue (is_word (micro_text n)) }
{}
