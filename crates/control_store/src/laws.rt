//! Laws of the definitions. These functions do nothing: their contracts are the laws.

ghost use Rattle.std.specs.Prelude.{◌≡◌, ℕ, ◌<◌, ◌≤◌, ◌^◌, ◌+◌, length, List, Option, Some};
ghost use Rattle.std.specs.List.{AllByRecursion};
ghost use Rattle.proto_model.specs.Tokens.{Text};
ghost use Rattle.controller_table.specs.Sound.{IsSound, Tabled};
ghost use Rattle.controller_table.specs.declared.rows.Row.{Row};
ghost use Rattle.control_store.specs.RowWord.{IsInRange, DecodesRow, row_word};
ghost use Rattle.control_store.specs.Image.{image};
ghost use Rattle.control_store.specs.Compared.{all_rows};

/// Decoding undoes encoding: the word of a row in range stands for this row and for no other.
pub fn a_word_is_of_one_row()
    ensures undone { (row : Row) (found : Option Row) → IsInRange row
        → DecodesRow (row_word row) found → found ≡ Some row }
    ensures length { (row : Row) → length (row_word row) ≡ 16 }
{}

/// Each row of a sound table is in range, and it has at most 6,208.
pub fn rows_are_in_range()
    ensures range { (table : Tabled) → IsSound table → AllByRecursion IsInRange (all_rows table) }
    ensures number { (table : Tabled) → IsSound table → length (all_rows table) ≤ 6208 }
{}

/// Two images are equal only for equal texts, equal modes, and equal rows of the home and of a
/// remote. The texts have fewer than 2^64 bytes, and the rows are those of sound tables.
pub fn images_tell_their_parts()
    ensures text { (s t : Text) (a b : Tabled) → length s < 2 ^ 64 → length t < 2 ^ 64
        → IsSound a → IsSound b → image s a ≡ image t b → s ≡ t }
    ensures mode { (s t : Text) (a b : Tabled) → length s < 2 ^ 64 → length t < 2 ^ 64
        → IsSound a → IsSound b → image s a ≡ image t b → a.mode ≡ b.mode }
    ensures rows { (s t : Text) (a b : Tabled) → length s < 2 ^ 64 → length t < 2 ^ 64
        → IsSound a → IsSound b → image s a ≡ image t b
        → (a.home.rows ≡ b.home.rows) × (a.remote.rows ≡ b.remote.rows) }
{}
