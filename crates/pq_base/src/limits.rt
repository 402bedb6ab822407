//! How large inputs and answers may be. The definitions name the same limits in `specs/Limits`.

ghost use Rattle.std.specs.Prelude.{◌≡◌};
ghost use Rattle.pq_base.specs.Limits.{max_presentation_bytes, max_certificate_bytes, max_name_bytes, max_names, max_fixed, max_iterated};
ghost use Rattle.pq_base.specs.Limits.{max_endos, max_exponent, max_letters, max_total_letters, max_open_brackets, max_class, max_rank};
ghost use Rattle.pq_base.specs.Limits.{max_sample};

/// The most bytes of a presentation.
pub const PRESENTATION_BYTES: usize = 4_194_304;

/// The most bytes of a certificate.
pub const CERTIFICATE_BYTES: usize = 268_435_456;

/// The most bytes of a name.
pub const NAME_BYTES: usize = 32;

/// The most generators of a presentation, which has at least one.
pub const GENERATORS: usize = 32;

/// The most fixed relators.
pub const FIXED: usize = 4_096;

/// The most iterated relators.
pub const ITERATED: usize = 4_096;

/// The most endomorphisms.
pub const ENDOS: usize = 16;

/// The greatest size of a written exponent.
pub const EXPONENT: u32 = 65_536;

/// The most letters of a word, of each part of it and of each partial product.
pub const LETTERS: usize = 65_536;

/// The most letters of all relators and images together.
pub const TOTAL: usize = 4_194_304;

/// The most brackets that are open at one place.
pub const BRACKETS: usize = 64;

/// The greatest class that may be asked for; the least is 1.
pub const CLASS: u8 = 60;

/// The greatest rank of an answer.
pub const RANK: usize = 100;

/// The greatest number of a sample.
pub const SAMPLE: u32 = 999_999;

/// Each constant is the limit that the definitions name.
pub fn constants_are_the_limits()
    ensures presentation_bytes { PRESENTATION_BYTES ≡ max_presentation_bytes }
    ensures certificate_bytes { CERTIFICATE_BYTES ≡ max_certificate_bytes }
    ensures name_bytes { NAME_BYTES ≡ max_name_bytes }
    ensures generators { GENERATORS ≡ max_names }
    ensures fixed { FIXED ≡ max_fixed }
    ensures iterated { ITERATED ≡ max_iterated }
    ensures endos { ENDOS ≡ max_endos }
    ensures exponent { EXPONENT ≡ max_exponent }
    ensures letters { LETTERS ≡ max_letters }
    ensures total { TOTAL ≡ max_total_letters }
    ensures brackets { BRACKETS ≡ max_open_brackets }
    ensures class { CLASS ≡ max_class }
    ensures rank { RANK ≡ max_rank }
    ensures sample { SAMPLE ≡ max_sample }
{}
