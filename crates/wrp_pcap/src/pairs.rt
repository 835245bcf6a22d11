//! The table of pairs: a chain for each master and slave of which a message came.
ghost use Rattle.std.specs.Prelude.{◌≡◌, ◌≢◌, true, [], ◌∷◌, List, IsOk, IsErr, IfOk};
ghost use Rattle.wrp_pcap.specs.Certificate.{Captured, IsAbove, verdict_of};
ghost use Rattle.wrp_pcap.specs.Chain.{is_masters, is_slaves};
ghost use Rattle.wrp_pcap.specs.StandsFor.{StandsFor, HasRoom, Heard, HeardAsMaster, HeardAsSlave, Kept, KeepsRoom, NeedsRoom, Opened, Written, trail_at, key, told_at};

use crate::Verdict8;
use crate::chain::Trail;
use std::alloc::{AllocError, Global};
use std::collections::BTreeMap;
use wrp_base::{Body, PortIdentity, PtpMsg, WrMsg};

// A master and its slave: clock and port of each.
type Key = ((u64, u16), (u64, u16));

fn key(master: PortIdentity, slave: PortIdentity) -> Key
    ensures { result ≡ key master slave }
{
    ((master.clock, master.port), (slave.clock, slave.port))
}

// Whether a master's message is one of a handshake before its WR_MODE_ON.
fn is_masters(message: WrMsg) -> bool
    ensures { result ≡ is_masters message }
{
    match message {
        WrMsg::Lock | WrMsg::Calibrate { .. } | WrMsg::Calibrated { .. } => true,
        WrMsg::Present | WrMsg::Locked | WrMsg::ModeOn => false,
    }
}

// Whether a slave's message is one of a handshake.
fn is_slaves(message: WrMsg) -> bool
    ensures { result ≡ is_slaves message }
{
    match message {
        WrMsg::Present | WrMsg::Locked | WrMsg::Calibrate { .. } | WrMsg::Calibrated { .. } => true,
        WrMsg::Lock | WrMsg::ModeOn => false,
    }
}

/// The messages of a capture, as far as a later WR_MODE_ON needs them: one running chain for each
/// master and slave of which a message came, and each place of a handshake.
#[derive(Debug, Drop)]
pub struct Pairs {
    chains: BTreeMap<Key, Trail>,
}

impl Pairs {
    /// No messages yet.
    pub fn new(alloc: Global) -> Pairs
        ensures { StandsFor result [] }
    {
        Pairs {
            chains: BTreeMap::new(alloc),
        }
    }

    /// Takes the message of the packet with the number `n`, and returns the verdict if it is a
    /// WR_MODE_ON. The number has to be above every earlier one. An error means that memory ran out;
    /// nothing has changed then, and the message may be taken again.
    pub fn take(&mut self, n: u32, m: &PtpMsg) -> Result<Option<Verdict8>, AllocError>
        // A WR_MODE_ON has the verdict expected after the messages before it; any other message has
        // none.
        ensures verdict { (before : List Captured) → StandsFor self.old before →
            IfOk result (λ told. told ≡ verdict_of (record { number = n; message = m.now }) before) }

        // The message is put in front of the earlier ones.
        ensures adds { (before : List Captured) → StandsFor self.old before → IsAbove n before → IsOk result →
            StandsFor self.new (record { number = n; message = m.now } ∷ before) }

        // If memory runs out, nothing changes.
        ensures refused { (before : List Captured) → StandsFor self.old before → IsErr result →
            StandsFor self.new before }

        // Only a White Rabbit message that is no WR_MODE_ON can need memory.
        ensures room { IsErr result → NeedsRoom m.now.body }
    {
        let told = self.told(n, m);
        self.keep(n, m)?;
        Ok(told)
    }

    /// The verdict on a message, if there is one.
    pub(crate) fn told(&self, n: u32, m: &PtpMsg) -> Option<Verdict8>
        ensures { result ≡ told_at self.now n m.now.head.source m.now.body }
    {
        match m.body {
            Body::Signal {
                target,
                wr: Some(WrMsg::ModeOn),
            } => Some(self.chain(m.head.source, target).verdict(n)),
            _ => None,
        }
    }

    /// Keeps a message.
    pub(crate) fn keep(&mut self, n: u32, m: &PtpMsg) -> Result<(), AllocError>
        ensures ok { IsOk result → Kept n m.now.head.source m.now.body self.old self.new }
        ensures err { IsErr result → Opened self.old self.new }
        ensures room { IsErr result → NeedsRoom m.now.body }
    {
        match m.body {
            Body::Signal {
                target,
                wr: Some(message),
            } => self.hear(n, m.head.source, target, message),
            _ => Ok(()),
        }
    }

    // The chain of a master and its slave.
    fn chain(&self, master: PortIdentity, slave: PortIdentity) -> Trail
        ensures { result ≡ trail_at self.now master slave }
    {
        match self.chains.get(&key(master, slave)) {
            Some(chain) => *chain,
            None => Trail::new(),
        }
    }

    // Keeps a White Rabbit message: first makes room for the chains that it changes, then makes the
    // changes, which need no more room.
    fn hear(
        &mut self,
        n: u32,
        source: PortIdentity,
        target: PortIdentity,
        message: WrMsg,
    ) -> Result<(), AllocError>
        ensures ok { IsOk result → Heard source target message n self.old self.new }
        ensures err { IsErr result → Opened self.old self.new }
        ensures room { IsErr result → message ≢ WrMsg.ModeOn }
    {
        self.open_both(source, target, message)?;
        self.hear_master(n, source, target, message);
        self.hear_slave(n, source, target, message);
        Ok(())
    }

    // Makes room for the chains that a message changes.
    fn open_both(
        &mut self,
        source: PortIdentity,
        target: PortIdentity,
        message: WrMsg,
    ) -> Result<(), AllocError>
        ensures chains { Opened self.old self.new }
        ensures room { IsErr result → message ≢ WrMsg.ModeOn }
        ensures master { IsOk result → is_masters message ≡ true → HasRoom source target self.new }
        ensures slave { IsOk result → is_slaves message ≡ true → HasRoom target source self.new }
    {
        if is_masters(message) {
            self.open(source, target)?;
        }
        if is_slaves(message) {
            self.open(target, source)?;
        }
        Ok(())
    }

    // Keeps a message as the message of a master.
    fn hear_master(&mut self, n: u32, source: PortIdentity, target: PortIdentity, message: WrMsg)
        requires { is_masters message ≡ true → HasRoom source target self.old }
        ensures chains { HeardAsMaster source target message n self.old self.new }
        ensures room { KeepsRoom self.old self.new }
    {
        if is_masters(message) {
            let chain = self.chain(source, target).after_master(message, n);
            self.write(source, target, chain);
        }
    }

    // Keeps a message as the message of a slave.
    fn hear_slave(&mut self, n: u32, source: PortIdentity, target: PortIdentity, message: WrMsg)
        requires { is_slaves message ≡ true → HasRoom target source self.old }
        ensures { HeardAsSlave source target message n self.old self.new }
    {
        if is_slaves(message) {
            let chain = self.chain(target, source).after_slave(message, n);
            self.write(target, source, chain);
        }
    }

    // Makes room for a chain, which is the chain of no messages until one is written.
    fn open(&mut self, master: PortIdentity, slave: PortIdentity) -> Result<(), AllocError>
        ensures chains { Opened self.old self.new }
        ensures room { IsOk result → HasRoom master slave self.new }
    {
        let key = key(master, slave);
        if !self.chains.contains_key(&key) {
            self.chains.insert(key, Trail::new())?;
        }
        Ok(())
    }

    // Writes a chain for which there is room.
    fn write(&mut self, master: PortIdentity, slave: PortIdentity, chain: Trail)
        requires { HasRoom master slave self.old }
        ensures chains { Written master slave chain self.old self.new }
        ensures room { KeepsRoom self.old self.new }
    {
        if let Some(kept) = self.chains.get_mut(&key(master, slave)) {
            *kept = chain;
        }
    }
}
