//! Descriptors as 16 bytes and as numbers.
ghost use Rattle.std.specs.Prelude.{◌≡◌, ◌≢◌, ◌<◌, IfErr, IfNone, IfOk, IfSome, length};
ghost use Rattle.descriptor.specs.Layout.{AreBytes};
ghost use Rattle.descriptor.specs.Receive.{rx_back_form, rx_back_numbers, rx_read_form, rx_read_numbers};
ghost use Rattle.descriptor.specs.Transmit.{no_numbers, tx_back_form, tx_read_form, tx_read_numbers};
ghost use Rattle.c_data.specs.Descriptors.{AreRxBack, AreRxRead, AreTxRead, IsRefusal, IsRxBack, IsRxRead, IsTxRead};
ghost use Rattle.ffi_handle.specs.Words.{is_set};

use descriptor::{Descriptor, RxBack, RxRead, TxBack, TxRead};
use ffi_handle::{flag_word, is_set};
use limits::{BUFFER_BYTES, LEAST_FRAME, MOST_FRAME};

/// The fields of a descriptor: its buffer's number, the bytes in that buffer, EOP, RS, and PAYLEN in bytes. EOP and RS
/// are yes if not 0. A field that the form lacks is 0 after decoding, and ignored when encoding.
#[repr(C)]
#[derive(Clone, Copy)]
pub struct Poll82599Descriptor {
    pub number: u32,
    pub len: u32,
    pub eop: u32,
    pub rs: u32,
    pub paylen: u32,
}

/// The result for an unknown form.
const NO_FORM: u32 = 0xFFFF_FFFF;

/// The length is not 16 bytes.
const NOT_SIXTEEN: u32 = 1;

/// No descriptor of the form has these fields.
const UNSAID: u32 = 2;

/// Decodes 16 bytes. Any thread may call it. The form is 0 for a receive descriptor as the driver posts it, 1 as the
/// controller writes it back, 2 for a transmit descriptor as the driver posts it, 3 as the controller writes it back.
/// Returns 0: done; otherwise the lowest number that applies: 1: the length is not 16; 2: a bit that the profile fixes
/// has another value; 3: no advanced data descriptor; 4: a length is out of range; or `0xFFFF_FFFF`: unknown form. Only
/// 0 changes `said`.
#[unsafe(no_mangle)]
pub extern "C" fn poll82599_decode(form: u32, bytes: &[u8], said: &mut Poll82599Descriptor) -> u32
    ensures kept { (result ≢ 0) → said.new ≡ said.old }
    ensures rx_read { (form ≡ 0) → (result ≡ 0) → AreRxRead said.new bytes.now }
    ensures rx_back { (form ≡ 1) → (result ≡ 0) → AreRxBack said.new bytes.now }
    ensures tx_read { (form ≡ 2) → (result ≡ 0) → AreTxRead said.new bytes.now }
    ensures tx_back { (form ≡ 3) → (result ≡ 0) → AreBytes tx_back_form no_numbers bytes.now }
    ensures no_rx_read { (form ≡ 0) → (result ≢ 0) → IsRefusal rx_read_form bytes.now result }
    ensures no_rx_back { (form ≡ 1) → (result ≢ 0) → IsRefusal rx_back_form bytes.now result }
    ensures no_tx_read { (form ≡ 2) → (result ≢ 0) → IsRefusal tx_read_form bytes.now result }
    ensures no_tx_back { (form ≡ 3) → (result ≢ 0) → IsRefusal tx_back_form bytes.now result }
    ensures no_form { (3 < form) → result ≡ 4294967295 }
{
    let read = match form {
        0 => rx_read_in(bytes),
        1 => rx_back_in(bytes),
        2 => tx_read_in(bytes),
        3 => tx_back_in(bytes),
        _ => Err(NO_FORM),
    };
    match read {
        Ok(new) => {
            *said = new;
            0
        }
        Err(why) => why,
    }
}

/// Encodes fields into 16 bytes, in a form as for `poll82599_decode`. Any thread may call it. Returns 0: done; 1: the
/// length is not 16; 2: no descriptor of the form has these fields; or `0xFFFF_FFFF`: unknown form. Only 0 changes the
/// bytes.
#[unsafe(no_mangle)]
pub extern "C" fn poll82599_encode(form: u32, said: &Poll82599Descriptor, bytes: &mut [u8]) -> u32
    ensures kept { (result ≢ 0) → bytes.new ≡ bytes.old }
    ensures rx_read { (form ≡ 0) → (result ≡ 0) → AreRxRead said.now bytes.new }
    ensures rx_back { (form ≡ 1) → (result ≡ 0) → AreRxBack said.now bytes.new }
    ensures tx_read { (form ≡ 2) → (result ≡ 0) → AreTxRead said.now bytes.new }
    ensures tx_back { (form ≡ 3) → (result ≡ 0) → AreBytes tx_back_form no_numbers bytes.new }
    ensures sixteen { (result ≡ 1) → length bytes.old ≢ 16 }
    ensures no_rx_read { (form ≡ 0) → (result ≡ 2) → ¬ IsRxRead said.now }
    ensures no_rx_back { (form ≡ 1) → (result ≡ 2) → ¬ IsRxBack said.now }
    ensures no_tx_read { (form ≡ 2) → (result ≡ 2) → ¬ IsTxRead said.now }
    ensures always_tx_back { (form ≡ 3) → result ≢ 2 }
    ensures no_form { (3 < form) → (length bytes.old ≡ 16) → result ≡ 4294967295 }
{
    if bytes.len() != 16 {
        return NOT_SIXTEEN;
    }
    let made = match form {
        0 => rx_read_bytes(said),
        1 => rx_back_bytes(said),
        2 => tx_read_bytes(said),
        3 => Some(TxBack.to_bytes()),
        _ => return NO_FORM,
    };
    match made {
        Some(new) => {
            bytes.copy_from_slice(&new);
            0
        }
        None => UNSAID,
    }
}

/// A descriptor whose fields are all 0.
fn nothing() -> Poll82599Descriptor {
    Poll82599Descriptor {
        number: 0,
        len: 0,
        eop: 0,
        rs: 0,
        paylen: 0,
    }
}

fn rx_read_in(bytes: &[u8]) -> Result<Poll82599Descriptor, u32>
    ensures some { IfOk result (λ d. AreBytes rx_read_form (rx_read_numbers d.number) bytes.now) }
    ensures refused { IfErr result (λ why. IsRefusal rx_read_form bytes.now why) }
{
    match RxRead::from_bytes(bytes) {
        Ok(read) => Ok(Poll82599Descriptor {
            number: u32::from(read.number),
            ..nothing()
        }),
        Err(why) => Err(u32::from(why.number())),
    }
}

fn rx_back_in(bytes: &[u8]) -> Result<Poll82599Descriptor, u32>
    ensures some { IfOk result (λ d. AreBytes rx_back_form (rx_back_numbers d.len (is_set d.eop)) bytes.now) }
    ensures refused { IfErr result (λ why. IsRefusal rx_back_form bytes.now why) }
{
    match RxBack::from_bytes(bytes) {
        Ok(back) => Ok(Poll82599Descriptor {
            len: u32::from(back.len),
            eop: flag_word(back.eop),
            ..nothing()
        }),
        Err(why) => Err(u32::from(why.number())),
    }
}

fn tx_read_in(bytes: &[u8]) -> Result<Poll82599Descriptor, u32>
    ensures some { IfOk result (λ d. AreBytes tx_read_form (tx_read_numbers d.number d.len (is_set d.eop) (is_set d.rs) d.paylen) bytes.now) }
    ensures refused { IfErr result (λ why. IsRefusal tx_read_form bytes.now why) }
{
    match TxRead::from_bytes(bytes) {
        Ok(read) => Ok(Poll82599Descriptor {
            number: u32::from(read.number),
            len: u32::from(read.len),
            eop: flag_word(read.eop),
            rs: flag_word(read.rs),
            paylen: u32::from(read.paylen),
        }),
        Err(why) => Err(u32::from(why.number())),
    }
}

fn tx_back_in(bytes: &[u8]) -> Result<Poll82599Descriptor, u32>
    ensures some { IfOk result (λ _. AreBytes tx_back_form no_numbers bytes.now) }
    ensures refused { IfErr result (λ why. IsRefusal tx_back_form bytes.now why) }
{
    match TxBack::from_bytes(bytes) {
        Ok(_) => Ok(nothing()),
        Err(why) => Err(u32::from(why.number())),
    }
}

fn rx_read_bytes(said: &Poll82599Descriptor) -> Option<[u8; 16]>
    ensures some { IfSome result (λ bytes. AreRxRead said.now bytes) }
    ensures none { IfNone result (¬ IsRxRead said.now) }
{
    if said.number > 0xFFFF {
        return None;
    }
    let read = RxRead {
        number: said.number as u16,
    };
    Some(read.to_bytes())
}

fn rx_back_bytes(said: &Poll82599Descriptor) -> Option<[u8; 16]>
    ensures some { IfSome result (λ bytes. AreRxBack said.now bytes) }
    ensures none { IfNone result (¬ IsRxBack said.now) }
{
    if said.len == 0 || BUFFER_BYTES < said.len as usize {
        return None;
    }
    Some(RxBack::new(said.len as u16, is_set(said.eop)).to_bytes())
}

fn tx_read_bytes(said: &Poll82599Descriptor) -> Option<[u8; 16]>
    ensures some { IfSome result (λ bytes. AreTxRead said.now bytes) }
    ensures none { IfNone result (¬ IsTxRead said.now) }
{
    let (eop, rs) = (is_set(said.eop), is_set(said.rs));
    if said.number > 0xFFFF || (rs && !eop) {
        return None;
    }
    if said.len == 0 || BUFFER_BYTES < said.len as usize {
        return None;
    }
    let paylen = said.paylen as usize;
    if paylen < LEAST_FRAME || MOST_FRAME < paylen {
        return None;
    }
    let (number, len) = (said.number as u16, said.len as u16);
    Some(TxRead::new(number, len, eop, rs, said.paylen as u16).to_bytes())
}
