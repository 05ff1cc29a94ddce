// Little-endian numbers in bytes.
ghost use Rattle.std.specs.Prelude.{◌≡◌};
ghost use Rattle.fields.specs.Bytes.{number_at};

#[unsafe(no_mangle)]
pub extern "C" fn mudcanvas_raw_u32_at(bytes: &[u8], at: usize) -> u32
    ensures { result ≡ number_at 4 bytes.now at }
{
    fields::u32_at(bytes, at)
}

#[unsafe(no_mangle)]
pub extern "C" fn mudcanvas_raw_u64_at(bytes: &[u8], at: usize) -> u64
    ensures { result ≡ number_at 8 bytes.now at }
{
    fields::u64_at(bytes, at)
}

#[unsafe(no_mangle)]
pub extern "C" fn mudcanvas_raw_load_word(bytes: &[u8]) -> u64
    ensures { result ≡ number_at 8 bytes.now 0 }
{
    fields::load_word(bytes)
}
