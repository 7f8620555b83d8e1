//! Laws of the definitions. These functions do nothing: their contracts are the laws.

ghost use Rattle.std.specs.Prelude.{◌≡◌, ◌++◌, ◌∷◌, List};
ghost use Rattle.proto_model.specs.Tokens.{Text};
ghost use Rattle.proto_model.specs.Lexemes.{Lexeme, lexemes};
ghost use Rattle.protocol_reader.specs.LexemeLines.{Stands};

/// Each lexeme of a file, the empty one of its end too, stands behind the lexemes before it and
/// gaps, and its line is 1 plus the number of LFs before it; that of the end is on the line behind
/// all LFs.
pub fn the_line_of_a_lexeme_counts_line_feeds()
    ensures { (bytes : Text) (front : List Lexeme) (here : Lexeme) (rest : List Lexeme)
        → lexemes bytes ≡ front ++ here ∷ rest → Stands 1 bytes front here rest }
{}
