//! Initialization: the SA register, and the four words that a host writes to it.
//!
//! UDA50 Programmer's Documentation Kit: initialization, communication area.
ghost use Rattle.std.specs.Prelude.{◌≡◌, ◌≤◌, ◌<◌, true};
ghost use Rattle.uda_port.specs.declared.phase.Phase.TheVariants.{Step1, Step2, Step3, PurgeTest, Step4};
ghost use Rattle.uda_port.specs.Possible.{addresses_by, CanDie, is_step_3};
ghost use Rattle.uda_port.specs.Startup.{sa_shown, guest_sa, after_step1_write, after_step2_write, after_step3_write, after_purge_test_write, after_step4_write, after_sa_write};
ghost use Rattle.uda_port.specs.Startup.{has_bit, refuses_second, refuses_third, asks_test, after_third};
ghost use Rattle.uda_port.specs.Startup.{IsArea, port_with_rings, failed_port, after_wrap_request};

use crate::area::Area;
use crate::phase::{Fatal, Phase};
use crate::port::Port;
use crate::profile::Profile;
use uda_image::BlockStore;
use uda_mem::HostMemory;
use uda_packet::Bus;

/// The bit that the first word must have set.
const STEP: u16 = 15;

/// The bit of the first word that asks for wrap mode.
const WRAP: u16 = 14;

/// The bit of the second word that asks for purge interrupts.
const PURGE: u16 = 0;

/// The bits of the third word that are the high part of the ring base in the strict profile.
const BASE_HIGH: u16 = 0x0003;

/// The bit of the third word that asks for the purge and poll test.
const TEST: u16 = 15;

/// The go bit of the fourth word.
const GO: u16 = 0;

impl<S: BlockStore> Port<S> {
    /// Returns SA: the step of initialization with its echo, 0 while the port runs, or bit 15 with the code
    /// of the fatal error.
    ///
    /// UDA50 Programmer's Documentation Kit: initialization, fatal errors.
    pub fn read_sa(&self) -> u16
        ensures sa { result ≡ sa_shown self.now }
    {
        match self.profile {
            Profile::Strict => self.phase.sa(),
            Profile::Compatible(identity) => guest_sa(identity.bus, self.phase),
        }
    }

    /// Writes `word` to SA: one step of initialization. A port that runs or is dead ignores the word.
    ///
    /// - The first word has bit 15 set; otherwise the port ignores it. Bits 10-8 and 13-11 are the exponents
    ///   of the lengths of response ring and command ring. In the compatible profile bit 7 enables interrupts
    ///   by the steps, and bits 6-0 are a quarter of the vector address.
    /// - The second word has bits 15-1 of the ring base.
    /// - The third word is the high part of the ring base, at most 3. The port then zeroes both rings and the
    ///   four bytes below the ring base. If they aren't all in `memory`, it writes nothing and fails with
    ///   [`Fatal::RingWrite`].
    /// - The fourth word has bit 0 set; otherwise the port ignores it. The port then runs.
    ///
    /// In the strict profile [`Fatal::InitializationError`] follows a request for wrap mode (bit 14 of the first
    /// word) or for purge interrupts (bit 0 of the second). It also follows any other bit of the third word.
    ///
    /// The compatible profile accepts all of them:
    ///
    /// - Wrap mode begins at bit 14 of the first word: SA shows each word that the host writes, until the
    ///   host writes IP.
    /// - With purge interrupts the port zeroes eight bytes below the ring base.
    /// - The high part of the base has as many bits of the third word as an address of the bus has above bit
    ///   15.
    /// - Bit 15 of the third word asks for the purge and poll test. SA shows 0, the host writes 0 to SA and
    ///   then reads IP, and step 4 follows.
    ///
    /// UDA50 Programmer's Documentation Kit: initialization, communication area.
    #[tactic(auto, using(crate::proofs::Length::wholes))]
    pub fn write_sa(&mut self, word: u16, memory: &mut HostMemory)
        ensures effect { (self.new, memory.new) ≡ after_sa_write self.old.phase self.old memory.old word }
    {
        self.write_sa_in(word, memory.as_mut_slice())
    }

    /// Does the same over a slice of any length: [`write_sa`](Port::write_sa) with borrowed memory.
    pub fn write_sa_in(&mut self, word: u16, memory: &mut [u8])
        ensures effect { (self.new, memory.new) ≡ after_sa_write self.old.phase self.old memory.old word }
    {
        match self.phase {
            Phase::Step1 => self.first_word(word),
            Phase::Step2 { first } => self.second_word(first, word),
            Phase::Step3 { first, second } => self.third_word(first, second, word, memory),
            Phase::Wrap { .. } => self.phase = Phase::Wrap { word },
            Phase::PurgeTest => self.purge_word(word),
            Phase::Step4 => self.fourth_word(word),
            Phase::PollTest | Phase::Running | Phase::Dead { .. } => {}
        }
    }

    /// Fails with a fatal error, which may raise an interrupt request.
    pub(crate) fn die(&mut self, cause: Fatal)
        requires dies { CanDie self.old.profile self.old.phase cause }
        ensures { self.new ≡ failed_port self.old cause }
    {
        self.phase = Phase::Dead { cause };
        self.interrupts = self.interrupts.raised(self.profile);
    }

    fn first_word(&mut self, word: u16)
        requires step { self.old.phase ≡ Step1 }
        ensures { self.new ≡ after_step1_write self.old word }
    {
        if !has_bit(word, STEP) {
            return;
        }
        if has_bit(word, WRAP) {
            return self.wrap(word);
        }
        let asked = self.interrupts.asked(self.profile, word);
        self.interrupts = asked.raised_by_step(self.profile);
        self.phase = Phase::Step2 { first: word };
    }

    // Enters wrap mode. In the strict profile it is a fatal error.
    fn wrap(&mut self, word: u16)
        requires step { self.old.phase ≡ Step1 }
        ensures { self.new ≡ after_wrap_request self.old.profile self.old word }
    {
        match self.profile {
            Profile::Strict => self.die(Fatal::InitializationError),
            Profile::Compatible(_) => self.phase = Phase::Wrap { word },
        }
    }

    fn second_word(&mut self, first: u16, word: u16)
        requires step { self.old.phase ≡ Step2 first }
        ensures { self.new ≡ after_step2_write self.old first word }
    {
        if refuses_second(self.profile, word) {
            return self.die(Fatal::InitializationError);
        }
        self.interrupts = self.interrupts.raised_by_step(self.profile);
        self.phase = Phase::Step3 {
            first,
            second: word,
        };
    }

    fn third_word(&mut self, first: u16, second: u16, word: u16, memory: &mut [u8])
        requires step { self.old.phase ≡ Step3 first second }
        ensures { (self.new, memory.new) ≡ after_step3_write self.old memory.old first second word }
    {
        if refuses_third(self.profile, word) {
            return self.die(Fatal::InitializationError);
        }
        let area = Area::of_words(self.profile, first, second, word);
        if !area.is_in(memory) {
            return self.die(Fatal::RingWrite);
        }
        area.zero(memory);
        self.set_rings(area, word);
    }

    // Sets the rings from the area, and enters the phase that follows the third word.
    fn set_rings(&mut self, area: Area, word: u16)
        requires valid { IsArea area }
        requires above { 4 ≤ area.base }
        requires within { area.base < addresses_by self.old.profile }
        requires step { is_step_3 self.old.phase ≡ true }
        ensures { self.new ≡ after_third (port_with_rings self.old area) word }
    {
        self.responses = area.response_ring();
        self.commands = area.command_ring();
        if asks_test(self.profile, word) {
            self.phase = Phase::PurgeTest;
        } else {
            self.interrupts = self.interrupts.raised_by_step(self.profile);
            self.phase = Phase::Step4;
        }
    }

    // Enters the poll test if the word is 0. The purge test ignores any other word.
    fn purge_word(&mut self, word: u16)
        requires step { self.old.phase ≡ PurgeTest }
        ensures { self.new ≡ after_purge_test_write self.old word }
    {
        if word == 0 {
            self.phase = Phase::PollTest;
        }
    }

    fn fourth_word(&mut self, word: u16)
        requires step { self.old.phase ≡ Step4 }
        ensures { self.new ≡ after_step4_write self.old word }
    {
        if has_bit(word, GO) {
            self.phase = Phase::Running;
        }
    }
}

// Returns what SA shows in the compatible profile. Steps 1 and 4 identify the controller.
fn guest_sa(bus: Bus, phase: Phase) -> u16
    ensures { result ≡ guest_sa bus phase }
{
    match (bus, phase) {
        (Bus::Unibus, Phase::Step1) => 0x0940,
        (Bus::Qbus, Phase::Step1) => 0x0b40,
        (Bus::Qbus, Phase::Step4) => 0x4133,
        _ => phase.sa(),
    }
}

// Returns whether the second word asks for a feature that the profile doesn't support.
fn refuses_second(profile: Profile, word: u16) -> bool
    ensures { result ≡ refuses_second profile word }
{
    match profile {
        Profile::Strict => has_bit(word, PURGE),
        Profile::Compatible(_) => false,
    }
}

/// Returns whether the third word asks for a feature that the profile doesn't support.
pub(crate) fn refuses_third(profile: Profile, word: u16) -> bool
    ensures { result ≡ refuses_third profile word }
{
    match profile {
        Profile::Strict => word > BASE_HIGH,
        Profile::Compatible(_) => false,
    }
}

// Returns whether the third word asks for the purge and poll test. In the strict profile it can't.
fn asks_test(profile: Profile, word: u16) -> bool
    ensures { result ≡ asks_test profile word }
{
    match profile {
        Profile::Strict => false,
        Profile::Compatible(_) => has_bit(word, TEST),
    }
}

/// Returns whether a bit of a word is set.
pub(crate) fn has_bit(word: u16, bit: u16) -> bool
    requires { bit < 16 }
    ensures { result ≡ has_bit word bit }
{
    word >> bit & 1 != 0
}
