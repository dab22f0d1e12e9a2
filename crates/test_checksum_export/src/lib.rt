#![tactic(auto)]

// The checksum under a name that a program in C or Rust can call: only for the benchmark; it is no part of the interface.
ghost use Rattle.std.specs.Prelude.{◌≡◌};
ghost use Rattle.checksum.specs.Crc.{checksum_of};

#[unsafe(no_mangle)]
pub extern "C" fn galtuyeg_checksum(bytes: &[u8]) -> u16
    ensures { result ≡ checksum_of bytes.now }
{
    checksum::checksum(bytes)
}
