// Inner layer, without code: what a font is, whatever its kind of file (specs/Meaning.antt), and what is known of it (proofs/).
#![tactic(auto)]
