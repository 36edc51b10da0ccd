// Published vectors, run one by one. The file stdout has what each must give, written from the publications and not from a run;
// the checksums of messages that were published for another digest are zlib's.
#![tactic(auto)]

ghost use Rattle.std.specs.Prelude.{◌≤◌, length};

use crc32::checksum::crc32;
use leb128::varint::{Reader, encode_u32, encoded_len};
use std::io;
use utf8::characters::is_utf8;

fn put(rt: &impl Print, s: &[u8]) -> io::Result<()> {
    rt.write_all(s)
}

fn put_number(rt: &impl Print, x: u32) -> io::Result<()> {
    rt.print(x)
}

fn digit(x: u8) -> u8 {
    let d = x % 16;
    if d < 10 { b'0' + d } else { b'A' + d - 10 }
}

// A space and two hexadecimal digits.
fn put_byte(rt: &impl Print, b: u8) -> io::Result<()> {
    put(rt, &[b' ', digit(b / 16), digit(b)])
}

fn put_first(rt: &impl Print, n: usize, s: &[u8]) -> io::Result<()>
    requires { n ≤ length s.now }
{
    for b in &s[..n] {
        put_byte(rt, *b)?;
    }
    Ok(())
}

fn put_bytes(rt: &impl Print, s: &[u8]) -> io::Result<()> {
    put_first(rt, s.len(), s)
}

fn put_checksum(rt: &impl Print, s: &[u8]) -> io::Result<()> {
    put(rt, b" -> ")?;
    let sum = crc32(s);
    print!(rt; "{sum:08x}")?;
    put(rt, b"\n")
}

fn checksum(rt: &impl Print, text: &[u8]) -> io::Result<()> {
    put(rt, b"crc32 \"")?;
    put(rt, text)?;
    put(rt, b"\"")?;
    put_checksum(rt, text)
}

fn checksum_of_bytes(rt: &impl Print, s: &[u8]) -> io::Result<()> {
    put(rt, b"crc32")?;
    put_bytes(rt, s)?;
    put_checksum(rt, s)
}

fn text(rt: &impl Print, s: &[u8]) -> io::Result<()> {
    put(rt, b"utf8")?;
    put_bytes(rt, s)?;
    if is_utf8(s) {
        put(rt, b" -> text\n")
    } else {
        put(rt, b" -> refused\n")
    }
}

fn read(rt: &impl Print, s: &[u8]) -> io::Result<()> {
    put(rt, b"read")?;
    put_bytes(rt, s)?;
    put(rt, b" -> ")?;
    let r = Reader { at: 0 };
    let Some(n) = r.decode_u32(s) else {
        return put(rt, b"refused\n");
    };
    put_number(rt, n.value)?;
    put(rt, b", reader at ")?;
    rt.print(n.next.at)?;
    put(rt, b"\n")
}

fn write(rt: &impl Print, x: u32) -> io::Result<()> {
    put(rt, b"write ")?;
    put_number(rt, x)?;
    put(rt, b" ->")?;
    let mut out = [0; 5];
    let n = encoded_len(x);
    if n <= 5 {
        encode_u32(x, &mut out, 0);
        put_first(rt, n, &out)?;
    }
    put(rt, b"\n")
}

fn catalogue_check(rt: &impl Print) -> io::Result<()> {
    put(
        rt,
        b"CRC-32: check value of CRC-32/ISO-HDLC, Catalogue of parametrised CRC algorithms\n",
    )?;
    checksum(rt, b"123456789")
}

fn rfc_1321(rt: &impl Print) -> io::Result<()> {
    put(rt, b"CRC-32: messages of RFC 1321, appendix A.5\n")?;
    checksum(rt, b"")?;
    checksum(rt, b"a")?;
    checksum(rt, b"abc")?;
    checksum(rt, b"message digest")?;
    checksum(rt, b"abcdefghijklmnopqrstuvwxyz")?;
    checksum(
        rt,
        b"ABCDEFGHIJKLMNOPQRSTUVWXYZabcdefghijklmnopqrstuvwxyz0123456789",
    )?;
    checksum(
        rt,
        b"12345678901234567890123456789012345678901234567890123456789012345678901234567890",
    )
}

fn rfc_3720(rt: &impl Print) -> io::Result<()> {
    put(rt, b"CRC-32: messages of RFC 3720, appendix B.4\n")?;
    checksum_of_bytes(rt, &[0x00; 32])?;
    checksum_of_bytes(rt, &[0xFF; 32])?;
    checksum_of_bytes(
        rt,
        b"\x00\x01\x02\x03\x04\x05\x06\x07\x08\x09\x0A\x0B\x0C\x0D\x0E\x0F\x10\x11\x12\x13\x14\x15\x16\x17\x18\x19\x1A\x1B\x1C\x1D\x1E\x1F",
    )
}

fn rosetta_code(rt: &impl Print) -> io::Result<()> {
    put(rt, b"CRC-32: Rosetta Code\n")?;
    checksum(rt, b"The quick brown fox jumps over the lazy dog")
}

fn rfc_3629_examples(rt: &impl Print) -> io::Result<()> {
    put(rt, b"UTF-8: examples of RFC 3629, section 7\n")?;
    text(rt, &[0x41, 0xE2, 0x89, 0xA2, 0xCE, 0x91, 0x2E])?;
    text(rt, &[0xED, 0x95, 0x9C, 0xEA, 0xB5, 0xAD, 0xEC, 0x96, 0xB4])?;
    text(rt, &[0xE6, 0x97, 0xA5, 0xE6, 0x9C, 0xAC, 0xE8, 0xAA, 0x9E])?;
    text(rt, &[0xEF, 0xBB, 0xBF, 0xF0, 0xA3, 0x8E, 0xB4])
}

fn rfc_3629_attacks(rt: &impl Print) -> io::Result<()> {
    put(rt, b"UTF-8: attacks of RFC 3629, sections 3 and 10\n")?;
    text(rt, &[0xC0, 0x80])?;
    text(rt, &[0xED, 0xA1, 0x8C, 0xED, 0xBE, 0xB4])?;
    text(rt, &[0x2F, 0xC0, 0xAE, 0x2E, 0x2F])
}

// The grammar has no row for these; of the last three the end is missing.
fn rfc_3629_grammar(rt: &impl Print) -> io::Result<()> {
    put(rt, b"UTF-8: outside the grammar of RFC 3629, section 4\n")?;
    text(rt, &[0xF5, 0x80, 0x80, 0x80])?;
    text(rt, &[0xC2])?;
    text(rt, &[0xE2, 0x89])?;
    text(rt, &[0xF0, 0x9F, 0x98])
}

// The first and last characters of one, two, three and four octets, the neighbours of the surrogates, and what lies past U+10FFFF.
fn kuhn_boundaries(rt: &impl Print) -> io::Result<()> {
    put(
        rt,
        b"UTF-8: Kuhn's decoder stress test, section 2, boundaries\n",
    )?;
    text(rt, &[0x00])?;
    text(rt, &[0x7F])?;
    text(rt, &[0xC2, 0x80])?;
    text(rt, &[0xDF, 0xBF])?;
    text(rt, &[0xE0, 0xA0, 0x80])?;
    text(rt, &[0xED, 0x9F, 0xBF])?;
    text(rt, &[0xEE, 0x80, 0x80])?;
    text(rt, &[0xEF, 0xBF, 0xBD])?;
    text(rt, &[0xEF, 0xBF, 0xBF])?;
    text(rt, &[0xF0, 0x90, 0x80, 0x80])?;
    text(rt, &[0xF4, 0x8F, 0xBF, 0xBF])?;
    text(rt, &[0xF4, 0x90, 0x80, 0x80])?;
    text(rt, &[0xF8, 0x88, 0x80, 0x80, 0x80])
}

fn kuhn_malformed(rt: &impl Print) -> io::Result<()> {
    put(
        rt,
        b"UTF-8: Kuhn's decoder stress test, section 3, malformed sequences\n",
    )?;
    text(rt, &[0x80])?;
    text(rt, &[0xBF])?;
    text(rt, &[0xFE])?;
    text(rt, &[0xFF])
}

fn kuhn_overlong(rt: &impl Print) -> io::Result<()> {
    put(
        rt,
        b"UTF-8: Kuhn's decoder stress test, section 4, overlong sequences\n",
    )?;
    text(rt, &[0xC0, 0xAF])?;
    text(rt, &[0xE0, 0x80, 0xAF])?;
    text(rt, &[0xF0, 0x80, 0x80, 0xAF])?;
    text(rt, &[0xC1, 0xBF])?;
    text(rt, &[0xE0, 0x9F, 0xBF])?;
    text(rt, &[0xF0, 0x8F, 0xBF, 0xBF])
}

fn kuhn_surrogates(rt: &impl Print) -> io::Result<()> {
    put(
        rt,
        b"UTF-8: Kuhn's decoder stress test, section 5, surrogates\n",
    )?;
    text(rt, &[0xED, 0xA0, 0x80])?;
    text(rt, &[0xED, 0xBF, 0xBF])?;
    text(rt, &[0xED, 0xA0, 0x80, 0xED, 0xB0, 0x80])
}

fn dwarf_5(rt: &impl Print) -> io::Result<()> {
    put(rt, b"LEB128: DWARF 5, table 7.7\n")?;
    read(rt, &[0x02])?;
    read(rt, &[0x7F])?;
    read(rt, &[0x80, 0x01])?;
    read(rt, &[0x81, 0x01])?;
    read(rt, &[0xB9, 0x64])?;
    write(rt, 2)?;
    write(rt, 127)?;
    write(rt, 128)?;
    write(rt, 129)?;
    write(rt, 12857)
}

fn wikipedia(rt: &impl Print) -> io::Result<()> {
    put(rt, b"LEB128: Wikipedia\n")?;
    read(rt, &[0xE5, 0x8E, 0x26])?;
    write(rt, 624485)
}

fn document_01(rt: &impl Print) -> io::Result<()> {
    put(rt, b"LEB128: stored numbers of document 01\n")?;
    read(rt, &[0xFF, 0xFF, 0xFF, 0xFF, 0x0F])?;
    read(rt, &[0xFF, 0xFF, 0xFF, 0xFF, 0x10])?;
    read(rt, &[0x80, 0x00])?;
    read(rt, &[0x80])?;
    read(rt, &[0x80, 0x80, 0x80, 0x80, 0x80, 0x00])?;
    write(rt, 4294967295)
}

fn main(rt: HostRuntime) -> io::Result<()> {
    catalogue_check(&rt)?;
    rfc_1321(&rt)?;
    rfc_3720(&rt)?;
    rosetta_code(&rt)?;
    rfc_3629_examples(&rt)?;
    rfc_3629_attacks(&rt)?;
    rfc_3629_grammar(&rt)?;
    kuhn_boundaries(&rt)?;
    kuhn_malformed(&rt)?;
    kuhn_overlong(&rt)?;
    kuhn_surrogates(&rt)?;
    dwarf_5(&rt)?;
    wikipedia(&rt)?;
    document_01(&rt)
}
