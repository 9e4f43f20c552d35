// Refusal 2: a list of glyph entries that breaks its rules or limit.
ghost use Rattle.std.specs.Prelude.{◌≡◌};
ghost use Rattle.rules.specs.Lists.{new_ids_stay, bad_id, bad_glyphs};

// Somewhere a new id is not followed by a higher one.
fn ids_stay(glyphs: &[u32]) -> bool
    ensures { result ≡ new_ids_stay glyphs.now }
{
    !glyphs.is_sorted_by(|d, e| *d / 65536 < *e / 65536)
}

fn bad_id(entry: u32) -> bool
    ensures { result ≡ bad_id entry }
{
    entry / 65536 > 65534 || entry % 65536 > 65534
}

pub fn bad_glyphs(glyphs: &[u32]) -> bool
    ensures { result ≡ bad_glyphs glyphs.now }
{
    glyphs.len() > 2048 || ids_stay(glyphs) || glyphs.iter().any(|e| bad_id(*e))
}
