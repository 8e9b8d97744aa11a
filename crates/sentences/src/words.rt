// The pieces of each language: one text, each piece closed by LF, in the order of `pieces`.
ghost use Rattle.std.specs.Prelude.{◌≡◌, [], get_or};
ghost use Rattle.sentences.specs.SheetOf.{language_of, in_lines, first_line, past_line};
ghost use Rattle.sentences.specs.Pieces.{pieces, past_lines};
ghost use Rattle.sentences.specs.Languages.{language_in};

use crate::Language;

const ENGLISH: [u8; 3934] = *b"\
    Line \n\
    : \n\
    , which has no sentence of its own.\n\
    The call was refused by number \n\
    The rule file is empty or longer than 8,192 bytes (refusal 1).\n\
    A line is not 1 to 120 pairs of the digits 0-9 and a-f, closed by a line feed (refusal 2).\n\
    The rule file does not end with a goal (refusal 3).\n\
    A line is too short or too long, or has a token that may not stand where it stands (refusal 4).\n\
    A number is outside its limits: rows 0 to 8, columns 1 to 4, key mask within the columns, lo at most hi, key pairs 1 to 4, from items 1 to 3, at most 6 with those of exists, selected columns 1 to 8, grouping columns 0 to 4, rounding step 1 to 1,000, aggregate 0 to 3, sign 0 or 1, at most 16 relations and 16 foreign keys (refusal 5).\n\
    A line names a relation, from item or column that is not there or does not fit, or its columns do not pair with the parent's key or the other view (refusal 6).\n\
    An aggregate stands outside the having and select of an aggregate view or inside another, a column outside every aggregate is not a grouping column, or an exists stands elsewhere than in where (refusal 7).\n\
    A view could have more than 64 rows (refusal 8).\n\
    A value could lie outside -2,147,483,648 to 2,147,483,647 (refusal 9).\n\
    The tables allow more than 16,777,216 databases (refusal 10).\n\
    The work area has fewer than 9,216 numbers (refusal 11).\n\
    The instance buffer has fewer numbers than the tables have cells (refusal 12).\n\
    The start is above the number of candidates (refusal 13).\n\
    The answer frames are malformed, missing or surplus, or have other row counts than the rule file (refusal 14).\n\
    No formula can be written: the file allows blanks, or its goal needs exists, an intersection, or an aggregate without grouping columns or over more than 6 combinations (refusal 15).\n\
    The formula is longer than the buffer for it (refusal 16).\n\
    The share of each turn is 0; it must be at least 1 (refusal 17).\n\
    The queue has more than 8 entries, or an entry's text ends beyond the text that was lent (refusal 18).\n\
    refused by number \n\
    the rule file is empty or longer than 8,192 bytes (refusal 1).\n\
    it is not 1 to 120 pairs of the digits 0-9 and a-f, closed by a line feed (refusal 2).\n\
    its kind is unknown or out of order; the order is tables, foreign keys, views, one goal (refusal 3).\n\
    it is too short or too long, or has a token that may not stand where it stands (refusal 4).\n\
    a number is outside its limits: rows 0 to 8, columns 1 to 4, key mask within the columns, lo at most hi, key pairs 1 to 4, from items 1 to 3, at most 6 with those of exists, selected columns 1 to 8, grouping columns 0 to 4, rounding step 1 to 1,000, aggregate 0 to 3, sign 0 or 1, at most 16 relations and 16 foreign keys (refusal 5).\n\
    it names a relation, from item or column that is not there or does not fit, or its columns do not pair with the parent's key or the other view (refusal 6).\n\
    an aggregate stands outside the having and select of an aggregate view or inside another, a column outside every aggregate is not a grouping column, or an exists stands elsewhere than in where (refusal 7).\n\
    this view could have more than 64 rows (refusal 8).\n\
    a value could lie outside -2,147,483,648 to 2,147,483,647 (refusal 9).\n\
    the tables allow more than 16,777,216 databases (refusal 10).\n\
    the work area has fewer than 9,216 numbers (refusal 11).\n\
    the instance buffer has fewer numbers than the tables have cells (refusal 12).\n\
    the start is above the number of candidates (refusal 13).\n\
    the answer frames are malformed, missing or surplus, or have other row counts than the rule file (refusal 14).\n\
    no formula can be written: the file allows blanks, or its goal needs exists, an intersection, or an aggregate without grouping columns or over more than 6 combinations (refusal 15).\n\
    the formula is longer than the buffer for it (refusal 16).\n\
    the share of each turn is 0; it must be at least 1 (refusal 17).\n\
    the queue has more than 8 entries, or an entry's text ends beyond the text that was lent (refusal 18).\n\
";

const FRENCH: [u8; 4587] = *b"\
    Ligne \n\
    \xc2\xa0: \n\
    , qui n\xe2\x80\x99a pas sa propre phrase.\n\
    L\xe2\x80\x99appel a \xc3\xa9t\xc3\xa9 refus\xc3\xa9 par le num\xc3\xa9ro \n\
    Le fichier de r\xc3\xa8gles est vide ou d\xc3\xa9passe 8\xe2\x80\xaf192 octets (refus 1).\n\
    Une ligne n\xe2\x80\x99est pas faite de 1 \xc3\xa0 120 paires de chiffres 0-9 et a-f, suivies d\xe2\x80\x99un saut de ligne (refus 2).\n\
    Le fichier de r\xc3\xa8gles ne se termine pas par un objectif (refus 3).\n\
    Une ligne est trop courte ou trop longue, ou contient un code qui ne peut pas se trouver l\xc3\xa0 o\xc3\xb9 il est (refus 4).\n\
    Un nombre est hors de ses limites\xc2\xa0: rang\xc3\xa9es 0 \xc3\xa0 8, colonnes 1 \xc3\xa0 4, masque de cl\xc3\xa9 dans les colonnes, lo au plus \xc3\xa9gal \xc3\xa0 hi, paires de cl\xc3\xa9 1 \xc3\xa0 4, \xc3\xa9l\xc3\xa9ments de from 1 \xc3\xa0 3, au plus 6 avec ceux des exists, colonnes s\xc3\xa9lectionn\xc3\xa9es 1 \xc3\xa0 8, colonnes de regroupement 0 \xc3\xa0 4, pas d\xe2\x80\x99arrondi 1 \xc3\xa0 1\xe2\x80\xaf000, agr\xc3\xa9gat 0 \xc3\xa0 3, signe 0 ou 1, au plus 16 relations et 16 cl\xc3\xa9s \xc3\xa9trang\xc3\xa8res (refus 5).\n\
    Une ligne nomme une relation, un \xc3\xa9l\xc3\xa9ment de from ou une colonne qui n\xe2\x80\x99existe pas ou ne convient pas, ou ses colonnes ne correspondent pas \xc3\xa0 la cl\xc3\xa9 du parent ou \xc3\xa0 l\xe2\x80\x99autre vue (refus 6).\n\
    Un agr\xc3\xa9gat se trouve hors du having et du select d\xe2\x80\x99une vue d\xe2\x80\x99agr\xc3\xa9gation ou dans un autre, une colonne hors de tout agr\xc3\xa9gat n\xe2\x80\x99est pas une colonne de regroupement, ou un exists se trouve ailleurs que dans where (refus 7).\n\
    Une vue pourrait avoir plus de 64 rang\xc3\xa9es (refus 8).\n\
    Une valeur pourrait sortir de l\xe2\x80\x99intervalle de \xe2\x88\x922\xe2\x80\xaf147\xe2\x80\xaf483\xe2\x80\xaf648 \xc3\xa0 2\xe2\x80\xaf147\xe2\x80\xaf483\xe2\x80\xaf647 (refus 9).\n\
    Les tables permettent plus de 16\xe2\x80\xaf777\xe2\x80\xaf216 bases de donn\xc3\xa9es (refus 10).\n\
    La zone de travail a moins de 9\xe2\x80\xaf216 nombres (refus 11).\n\
    Le tampon d\xe2\x80\x99instance a moins de nombres que les tables n\xe2\x80\x99ont de cellules (refus 12).\n\
    Le d\xc3\xa9part d\xc3\xa9passe le nombre de candidats (refus 13).\n\
    Les trames de r\xc3\xa9ponse sont mal form\xc3\xa9es, manquantes ou en trop, ou n\xe2\x80\x99ont pas les nombres de rang\xc3\xa9es du fichier de r\xc3\xa8gles (refus 14).\n\
    Aucune formule ne peut \xc3\xaatre \xc3\xa9crite\xc2\xa0: le fichier permet des cellules vides, ou son objectif demande exists, une intersection, ou un agr\xc3\xa9gat sans colonne de regroupement ou sur plus de 6 combinaisons (refus 15).\n\
    La formule est plus longue que le tampon pr\xc3\xa9vu pour elle (refus 16).\n\
    La part de chaque tour est 0\xe2\x80\xaf; elle doit \xc3\xaatre d\xe2\x80\x99au moins 1 (refus 17).\n\
    La file a plus de 8 entr\xc3\xa9es, ou le texte d\xe2\x80\x99une entr\xc3\xa9e finit au-del\xc3\xa0 du texte pr\xc3\xaat\xc3\xa9 (refus 18).\n\
    refus\xc3\xa9 par le num\xc3\xa9ro \n\
    le fichier de r\xc3\xa8gles est vide ou d\xc3\xa9passe 8\xe2\x80\xaf192 octets (refus 1).\n\
    elle n\xe2\x80\x99est pas faite de 1 \xc3\xa0 120 paires de chiffres 0-9 et a-f, suivies d\xe2\x80\x99un saut de ligne (refus 2).\n\
    son type est inconnu ou n\xe2\x80\x99est pas \xc3\xa0 sa place\xe2\x80\xaf; l\xe2\x80\x99ordre est tables, cl\xc3\xa9s \xc3\xa9trang\xc3\xa8res, vues, un objectif (refus 3).\n\
    elle est trop courte ou trop longue, ou contient un code qui ne peut pas se trouver l\xc3\xa0 o\xc3\xb9 il est (refus 4).\n\
    un nombre est hors de ses limites\xc2\xa0: rang\xc3\xa9es 0 \xc3\xa0 8, colonnes 1 \xc3\xa0 4, masque de cl\xc3\xa9 dans les colonnes, lo au plus \xc3\xa9gal \xc3\xa0 hi, paires de cl\xc3\xa9 1 \xc3\xa0 4, \xc3\xa9l\xc3\xa9ments de from 1 \xc3\xa0 3, au plus 6 avec ceux des exists, colonnes s\xc3\xa9lectionn\xc3\xa9es 1 \xc3\xa0 8, colonnes de regroupement 0 \xc3\xa0 4, pas d\xe2\x80\x99arrondi 1 \xc3\xa0 1\xe2\x80\xaf000, agr\xc3\xa9gat 0 \xc3\xa0 3, signe 0 ou 1, au plus 16 relations et 16 cl\xc3\xa9s \xc3\xa9trang\xc3\xa8res (refus 5).\n\
    elle nomme une relation, un \xc3\xa9l\xc3\xa9ment de from ou une colonne qui n\xe2\x80\x99existe pas ou ne convient pas, ou ses colonnes ne correspondent pas \xc3\xa0 la cl\xc3\xa9 du parent ou \xc3\xa0 l\xe2\x80\x99autre vue (refus 6).\n\
    un agr\xc3\xa9gat se trouve hors du having et du select d\xe2\x80\x99une vue d\xe2\x80\x99agr\xc3\xa9gation ou dans un autre, une colonne hors de tout agr\xc3\xa9gat n\xe2\x80\x99est pas une colonne de regroupement, ou un exists se trouve ailleurs que dans where (refus 7).\n\
    cette vue pourrait avoir plus de 64 rang\xc3\xa9es (refus 8).\n\
    une valeur pourrait sortir de l\xe2\x80\x99intervalle de \xe2\x88\x922\xe2\x80\xaf147\xe2\x80\xaf483\xe2\x80\xaf648 \xc3\xa0 2\xe2\x80\xaf147\xe2\x80\xaf483\xe2\x80\xaf647 (refus 9).\n\
    les tables permettent plus de 16\xe2\x80\xaf777\xe2\x80\xaf216 bases de donn\xc3\xa9es (refus 10).\n\
    la zone de travail a moins de 9\xe2\x80\xaf216 nombres (refus 11).\n\
    le tampon d\xe2\x80\x99instance a moins de nombres que les tables n\xe2\x80\x99ont de cellules (refus 12).\n\
    le d\xc3\xa9part d\xc3\xa9passe le nombre de candidats (refus 13).\n\
    les trames de r\xc3\xa9ponse sont mal form\xc3\xa9es, manquantes ou en trop, ou n\xe2\x80\x99ont pas les nombres de rang\xc3\xa9es du fichier de r\xc3\xa8gles (refus 14).\n\
    aucune formule ne peut \xc3\xaatre \xc3\xa9crite\xc2\xa0: le fichier permet des cellules vides, ou son objectif demande exists, une intersection, ou un agr\xc3\xa9gat sans colonne de regroupement ou sur plus de 6 combinaisons (refus 15).\n\
    la formule est plus longue que le tampon pr\xc3\xa9vu pour elle (refus 16).\n\
    la part de chaque tour est 0\xe2\x80\xaf; elle doit \xc3\xaatre d\xe2\x80\x99au moins 1 (refus 17).\n\
    la file a plus de 8 entr\xc3\xa9es, ou le texte d\xe2\x80\x99une entr\xc3\xa9e finit au-del\xc3\xa0 du texte pr\xc3\xaat\xc3\xa9 (refus 18).\n\
";

// The first line of a text, without its LF.
fn first_line(text: &[u8]) -> &[u8]
    ensures { result.now ≡ first_line text.now }
{
    match text.iter().position(|b| *b == b'\n') {
        Some(i) => &text[..i],
        None => text,
    }
}

// What stands behind it.
fn past_line(text: &[u8]) -> &[u8]
    ensures { result.now ≡ past_line text.now }
{
    let Some(i) = text.iter().position(|b| *b == b'\n') else {
        return &[];
    };
    &text[i + 1..]
}

// A text without its first k lines.
fn past_lines(text: &[u8], k: usize) -> &[u8]
    ensures { result.now ≡ past_lines k text.now }
{
    let mut rest = text;
    for _ in 0..k {
        rest = past_line(rest);
    }
    rest
}

// All pieces of a language.
// Refused: a wrong figure in an English limit; a wrong accent in a French word.
fn text_of(language: Language) -> &'static [u8]
    ensures { result.now ≡ in_lines (pieces (language_in language)) }
{
    match language {
        Language::English => &ENGLISH,
        Language::French => &FRENCH,
    }
}

// Piece k of a language.
// Refused: another piece; the first for each.
pub fn piece(language: Language, k: usize) -> &'static [u8]
    ensures { result.now ≡ get_or (pieces (language_in language)) k [] }
{
    first_line(past_lines(text_of(language), k))
}

// The same by the number of a language, which may come as any number: 0 is English, any other French.
// Refused: English for 1; English for 2.
pub fn piece_of(number: u8, k: usize) -> &'static [u8]
    ensures { result.now ≡ get_or (pieces (language_of number)) k [] }
{
    let language = match number {
        0 => Language::English,
        _ => Language::French,
    };
    piece(language, k)
}
