// A write queue over any memory: up to 16 puts wait, and go below the oldest first.
ghost use Rattle.std.specs.Prelude.{◌≡◌, ◌+◌, ◌-◌, ◌<◌, ◌≤◌, [], length, slice_index, slice_set};
ghost use Rattle.refusal.specs.Numbers.{numbered};
ghost use Rattle.memory.specs.Bytes.{read_at, put_at};
ghost use Rattle.memory.specs.Spans.{overlaid, times, merged, copied};
ghost use Rattle.layers.specs.Laid.{laid, laid_sound};
ghost use Rattle.layers.specs.Queue.{queue, sent, drained, taken, queued};
ghost use Rattle.layers.specs.Queue.{queued_all, queued_merged, queued_copied, through, Once};
ghost use Rattle.pixel.specs.Rasters.{raster_channel};

use super::pending::{Entry, Pending};
use memory::{ByteRule, First, Masks, Memory};
use refusal::Refusal;

// What it shows is the memory below, but at each address that waits the byte that waits there. Not `Drop`, so no waiting byte can be
// lost: it ends by `into_below`. No model: `new` says that it holds the memory itself.
pub struct WriteQueue<M> {
    below: M,
    pending: Pending,
}

impl<M: Memory> WriteQueue<M> {
    pub fn new(below: M) -> WriteQueue<M>
        ensures below { result.below ≡ below }
        ensures none { result.pending ≡ [] }
    {
        WriteQueue {
            below,
            pending: Pending::new(),
        }
    }

    // How many puts wait: at most 16, and no two for one address.
    pub fn waiting_count(&self) -> u8
        ensures count { result ≡ length self.now.pending }
        ensures most { length self.now.pending ≤ 16 }
        ensures once { Once self.now.pending }
    {
        self.pending.len() as u8
    }

    // What lies below an address, whatever waits for it.
    pub fn read_below(&self, address: u32) -> Result<u8, Refusal>
        ensures { numbered result ≡ read_at (M.bytes self.now.below) address }
    {
        self.below.read(address)
    }

    // Sends the oldest put below. It was within memory when it was kept, so it is taken.
    fn send(&mut self)
        requires { 0 < length self.old.pending }
        ensures oldest { queue (M.bytes self.new.below) self.new.pending ≡ sent (queue (M.bytes self.old.below) self.old.pending) }
        ensures less { length self.new.pending < length self.old.pending }
    {
        let oldest = self.pending.shift();
        let _ = self.below.put(oldest.address, oldest.value);
    }

    // Sends all below.
    pub fn drain(&mut self)
        ensures { queue (M.bytes self.new.below) self.new.pending ≡ drained (queue (M.bytes self.old.below) self.old.pending) }
    {
        while self.waiting_count() > 0 {
            self.send();
        }
    }

    // Sends all below and hands the memory below back.
    pub fn into_below(mut self) -> M
        ensures { M.bytes result ≡ laid (M.bytes self.below) self.pending }
    {
        self.drain();
        let WriteQueue { below, pending: _ } = self;
        below
    }

    // Keeps a put within memory. Where its address does not wait and 16 others do, the oldest goes below first.
    fn keep(&mut self, put: Entry)
        ensures { queue (M.bytes self.new.below) self.new.pending ≡ taken (queue (M.bytes self.old.below) self.old.pending) put.address put.value }
    {
        match self.pending.place(put.address) {
            Some(place) => self.pending.change(place, put),
            None => {
                if self.pending.is_full() {
                    self.send();
                }
                self.pending.push(put);
            }
        }
    }

    // How many of `count` bytes put from an address on go below in one call. The last 16 wait. A put changes what waits for its
    // address and sends nothing; but that happens 16 times at most, so 32 puts send all that waited, and 48 leave only the last.
    fn through(&self, address: u32, count: u32) -> u32
        ensures through { result ≡ through self.now.pending address count }
        ensures most { 0 < result → length self.now.pending ≤ 16 }
    {
        if count <= 16 || (self.pending.waits_within(address, count) && count < 48) {
            return 0;
        }
        count - 16
    }

    // Puts bytes one by one from an address on.
    fn put_each(&mut self, address: u32, bytes: &[u8])
        ensures { queue (M.bytes self.new.below) self.new.pending
            ≡ queued_all (queue (M.bytes self.old.below) self.old.pending) address bytes.now }
    {
        for (i, byte) in bytes.iter().enumerate() {
            if let Ok(address) = u32::try_from(address as u64 + i as u64) {
                let _ = self.put(address, *byte);
            }
        }
    }

    // Puts the bytes of a pixel one by one, `count` times over.
    fn fill_each(&mut self, address: u32, pixel: &[u8], count: u32)
        ensures { queue (M.bytes self.new.below) self.new.pending
            ≡ queued_all (queue (M.bytes self.old.below) self.old.pending)
            address (times pixel.now count) }
    {
        for k in 0..count {
            let start = address as u128 + k as u128 * pixel.len() as u128;
            if let Ok(address) = u32::try_from(start) {
                self.put_each(address, pixel);
            }
        }
    }

    // The byte `i` places from an address on, or 0 past the end.
    fn byte_at(&self, address: u32, i: u32) -> u8
        ensures { result ≡ slice_index (laid (M.bytes self.now.below) self.now.pending) (address + i) }
    {
        address
            .checked_add(i)
            .map_or(0, |address| self.read(address).unwrap_or(0))
    }

    // Merges `count` bytes one by one, but for the first `done` of them.
    fn merge_each<F: ByteRule>(
        &mut self,
        rule: F,
        first: u32,
        second: u32,
        to: u32,
        done: u32,
        count: u32,
    )
        requires { done ≤ count }
        ensures { queue (M.bytes self.new.below) self.new.pending
            ≡ queued_merged (F.gives rule) (queue (M.bytes self.old.below) self.old.pending)
            (first + done) (second + done) (to + done) (count - done) }
    {
        for i in done..count {
            let byte = rule.byte(self.byte_at(first, i), self.byte_at(second, i));
            if let Some(address) = to.checked_add(i) {
                let _ = self.put(address, byte);
            }
        }
    }

    /// As [`memory::merge`] does in any memory: so many puts, one after another.
    pub fn merge<F: ByteRule>(&mut self, rule: F, first: u32, second: u32, to: u32, count: u32)
        ensures after { laid (M.bytes self.new.below) self.new.pending
            ≡ merged (F.gives rule) (laid (M.bytes self.old.below) self.old.pending)
            first second to count }
        ensures kept { queue (M.bytes self.new.below) self.new.pending
            ≡ queued_merged (F.gives rule) (queue (M.bytes self.old.below) self.old.pending)
            first second to count }
        ensures once { Once self.old.pending → Once self.new.pending }
    {
        self.merge_each(rule, first, second, to, 0, count);
    }
}

impl<M: Memory> Memory for WriteQueue<M> {
    ghost bytes = { λ q. laid (M.Memory.bytes q.below) q.pending };

    ghost sound = { λ q. laid_sound (M.Memory.bytes q.below) q.pending (M.Memory.sound q.below) };

    // What waits adds no address.
    fn size(&self) -> u32 {
        self.below.size()
    }

    // It is the byte that waits for an address, or else the one below.
    fn read(&self, address: u32) -> Result<u8, Refusal> {
        if address >= self.size() {
            return Err(Refusal::NoSuchAddress);
        }
        match self.pending.place(address) {
            Some(place) => Ok(self.pending.at(place).value),
            None => self.read_below(address),
        }
    }

    // Past the end nothing is kept.
    fn put(&mut self, address: u32, value: u8) -> Result<(), Refusal>
        ensures answer { numbered result ≡ put_at (laid (M.Memory.bytes self.old.below) self.old.pending) address }
        ensures after { laid (M.Memory.bytes self.new.below) self.new.pending ≡ slice_set (laid (M.Memory.bytes self.old.below) self.old.pending) address value }
        ensures kept { queue (M.Memory.bytes self.new.below) self.new.pending ≡ queued (queue (M.Memory.bytes self.old.below) self.old.pending) address value }
        ensures once { Once self.old.pending → Once self.new.pending }
    {
        if address >= self.size() {
            return Err(Refusal::NoSuchAddress);
        }
        self.keep(Entry { address, value });
        Ok(())
    }

    // The bytes below, and over them those that wait.
    fn load(&self, address: u32, into: &mut [u8]) {
        self.below.load(address, into);
        let end = (self.size() as u64).min(address as u64 + into.len() as u64);
        for i in 0..self.pending.len() {
            let entry = self.pending.at(i);
            if entry.address >= address && (entry.address as u64) < end {
                into[(entry.address - address) as usize] = entry.value;
            }
        }
    }

    // A span is so many puts, one after another. Those that would by the end have gone below go there in one call, after all that
    // waits; the others are puts.
    fn store(&mut self, address: u32, from: &[u8])
        ensures after { laid (M.Memory.bytes self.new.below) self.new.pending
            ≡ overlaid (laid (M.Memory.bytes self.old.below) self.old.pending) address from.now }
        ensures kept { queue (M.Memory.bytes self.new.below) self.new.pending
            ≡ queued_all (queue (M.Memory.bytes self.old.below) self.old.pending) address from.now }
        ensures once { Once self.old.pending → Once self.new.pending }
    {
        let room = self.size().saturating_sub(address) as usize;
        let inside = &from[..from.len().min(room)];
        let through = self.through(address, inside.len() as u32);
        let (first, last) = inside.split_at(through as usize);
        if through > 0 {
            self.drain(); // what waits is older
            self.below.store(address, first);
        }
        self.put_each(address + through, last);
    }

    // As `store`; whole pixels go below in one call.
    fn fill(&mut self, address: u32, pixel: &[u8], count: u32)
        ensures after { laid (M.Memory.bytes self.new.below) self.new.pending
            ≡ overlaid (laid (M.Memory.bytes self.old.below) self.old.pending)
            address (times pixel.now count) }
        ensures kept { queue (M.Memory.bytes self.new.below) self.new.pending
            ≡ queued_all (queue (M.Memory.bytes self.old.below) self.old.pending)
            address (times pixel.now count) }
        ensures once { Once self.old.pending → Once self.new.pending }
    {
        if pixel.is_empty() {
            return;
        }
        let room = self.size().saturating_sub(address) as usize;
        let inside = pixel.len().saturating_mul(count as usize).min(room);
        let through = self.through(address, inside as u32) as usize / pixel.len();
        if through > 0 {
            self.drain();
            self.below.fill(address, pixel, through as u32);
        }
        let last = inside.div_ceil(pixel.len()) - through;
        let start = address as usize + through * pixel.len();
        self.fill_each(start as u32, pixel, last as u32);
    }

    // As `store`, each byte as it then is.
    fn copy(&mut self, from: u32, to: u32, count: u32)
        ensures after { laid (M.Memory.bytes self.new.below) self.new.pending
            ≡ copied (laid (M.Memory.bytes self.old.below) self.old.pending) from to count }
        ensures kept { queue (M.Memory.bytes self.new.below) self.new.pending
            ≡ queued_copied (queue (M.Memory.bytes self.old.below) self.old.pending) from to count }
        ensures once { Once self.old.pending → Once self.new.pending }
    {
        let inside = count.min(self.size().saturating_sub(to));
        let through = self.through(to, inside);
        if through > 0 {
            self.drain();
            self.below.copy(from, to, through);
        }
        self.merge_each(First, from, from, to, through, inside);
    }

    // As `copy`.
    fn raster(&mut self, rule: u8, first: u32, second: u32, to: u32, count: u32)
        ensures after { laid (M.Memory.bytes self.new.below) self.new.pending
            ≡ merged (raster_channel rule) (laid (M.Memory.bytes self.old.below) self.old.pending)
            first second to count }
        ensures kept { queue (M.Memory.bytes self.new.below) self.new.pending
            ≡ queued_merged (raster_channel rule) (queue (M.Memory.bytes self.old.below) self.old.pending)
            first second to count }
        ensures once { Once self.old.pending → Once self.new.pending }
    {
        let inside = count.min(self.size().saturating_sub(to));
        let through = self.through(to, inside);
        if through > 0 {
            self.drain();
            self.below.raster(rule, first, second, to, through);
        }
        self.merge_each(Masks::of(rule), first, second, to, through, inside);
    }
}
