//! Laws that functions without a body prove.

ghost use Rattle.fuse_protocol.specs.Bytes.{bytes_of_u16s, bytes_of_u32s, bytes_of_u64s, short_at, word_at, long_at};
ghost use Rattle.fuse_protocol.specs.Spellings.{AreReadBack, NamesAreReadBack, RequestsAreRead};

/// What is spelled in a request is what is read of it, wherever it stands: so no two requests, names or numbers are spelled alike.
pub fn spellings_are_read()
    ensures numbers_of_16_bits { AreReadBack 16 bytes_of_u16s short_at }
    ensures numbers_of_32_bits { AreReadBack 32 bytes_of_u32s word_at }
    ensures numbers_of_64_bits { AreReadBack 64 bytes_of_u64s long_at }
    ensures names { NamesAreReadBack }
    ensures requests { RequestsAreRead }
{}
