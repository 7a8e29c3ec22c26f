// The narrations.

// `m` sends a new `n`, and `h` answers with it under the key `k`.
pub(crate) const ANSWERED: &[u8] =
    b"(spec (declare (type \"m\" \"principal\") (type \"h\" \"principal\") (type-shared \"k\" \"number\") (type \"n\" \"number\") (everybody-knows \"k\")) (block (comm 1 \"m\" \"h\" \"n\") (comm 2 \"h\" \"m\" (crypt \"n\" \"k\" (vanilla)))) (sessions) (assume) (claim))";

// `m` sends a new `n` with `k`, and then under `k`.
pub(crate) const TWO_LINES: &[u8] =
    b"(spec (declare (type \"m\" \"principal\") (type \"h\" \"principal\") (type-shared \"k\" \"number\") (type \"n\" \"number\") (everybody-knows \"k\")) (block (comm 1 \"m\" \"h\" (tuple \"n\" \"k\")) (comm 2 \"m\" \"h\" (crypt \"n\" \"k\" (vanilla)))) (sessions) (assume) (claim))";

// `m` sends one compound of each kind, of a new `n` and `k`.
pub(crate) const EACH_KIND: &[u8] =
    b"(spec (declare (type \"m\" \"principal\") (type \"h\" \"principal\") (type-shared \"k\" \"number\") (type \"n\" \"number\") (type-shared \"f\" (function \"number\" \"number\" \"number\")) (everybody-knows \"k\")) (block (comm 1 \"m\" \"h\" (tuple (apply \"f\" \"n\" \"k\") (crypt \"n\" \"k\" (vanilla))))) (sessions) (assume) (claim))";
