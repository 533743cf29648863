//! Laws of the definitions.

ghost use Rattle.std.specs.Prelude.{◌≡◌, ◌++◌, ◌∷◌, [], List, map, true, ℕ};
ghost use Rattle.std.specs.List.{concat};
ghost use Rattle.bw_lex.specs.Parts.{AreParts};
ghost use Rattle.bw_lex.specs.declared.script.Part.{Part as AnyPart};
ghost use Rattle.bw_split.specs.Splitting.{PiecesGive, PartText, part_text, closes, fed, goes_on, texts_from, text_of_part};

/// The parts that a script yields byte by byte are its parts, and each script has a list of parts.
pub fn parts_are_given()
    ensures given { (script : List ℕ) (parts : List AnyPart) → AreParts script parts → texts_from [] script ≡ map (text_of_part script) parts }
    ensures some { (script : List ℕ) → (parts : List AnyPart) × AreParts script parts }
{}

/// However a script is split into pieces, they yield its parts.
pub fn pieces_give_parts()
    ensures { (pieces : List (List ℕ)) (all : List PartText) (parts : List AnyPart) → PiecesGive [] pieces all → AreParts (concat pieces) parts → all ≡ map (text_of_part (concat pieces)) parts }
{}

/// What an open part and a script yield, they yield piece by piece.
pub fn piece_by_piece()
    ensures on { (part piece next : List ℕ) → fed part piece ≡ goes_on next → (more : List ℕ) → texts_from part (piece ++ more) ≡ texts_from next more }
    ensures closed { (part piece next left : List ℕ) → fed part piece ≡ closes next left → (more : List ℕ) → texts_from part (piece ++ more) ≡ part_text next true ∷ texts_from [] (left ++ more) }
{}
