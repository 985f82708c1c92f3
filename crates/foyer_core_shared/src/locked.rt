//! What lies behind the lock: the core, the `Env` that it borrows, and the notes of its steps. Also the sessions that ask the core. All are
//! in one module, so that only a step writes the core, its notes, or a session's briefs.
ghost use Rattle.foyer_device_page.specs.declared.error.Error.TheVariants.{Memory};
ghost use Rattle.foyer_core_steps.specs.Content.{meaning};
ghost use Rattle.foyer_core_shared.specs.Behind.{HasRoom, kept_notes};
ghost use Rattle.foyer_core_shared.specs.Kinds.{kind_of, tallied};
ghost use Rattle.foyer_core_shared.specs.Noted.{and_note, notes_at_first};
ghost use Rattle.foyer_core_shared.specs.Sessions.{CountsEnds};
ghost use Rattle.foyer_core_tally.specs.Ledgers.{AreOf};
ghost use Rattle.foyer_core_tally.specs.Tally.{grown, none, both, saturated};
ghost use Rattle.std.specs.Prelude.{◌≡◌, ◌≢◌, ◌+◌, ◌<◌, IfErr, IfOk, IsOkUnless, OnOk, None, Some, [], ◌∷◌};
ghost use Rattle.std.specs.Option.{ForSome};

mod loads;
mod shown;

use crate::brief::{Brief, ReplyBrief, StepBrief};
use crate::notes::{Notes, Noting};
use foyer_block_index::tombstone::Tombstone;
use foyer_block_manager::block::eviction::EvictionPicker;
use foyer_block_recover::block::listing::Listings;
use foyer_core_steps::apply::Env;
use foyer_core_steps::open::RecoverMode;
use foyer_core_steps::reply::Reply;
use foyer_core_steps::settings::Settings;
use foyer_core_steps::state::Core;
use foyer_core_steps::step::Step;
use foyer_core_tally::book::{Blanks, Books, Kinds, Shares};
use foyer_device_page::error::Result;
use foyer_device_statistics::IoState;
use foyer_format_record::serde::{Code, Properties};
use foyer_io_disk::disk::Disk;
use foyer_policy_filter::{StorageFilter, StorageFilterCondition};
use std::alloc::{Allocator, Global};
use std::marker::{Model, PhantomData};

/// A caller's share of the book of steps, and its last two steps. Contracts see how many parts the share has, and how many steps of each
/// kind were noted with it.
pub struct Session<L: Kinds> {
    shares: Shares<L>,
    newest: Option<Brief>,
    before: Option<Brief>,
    closes: u64,
    destroys: u64,
}

// Written out, so that it is proved once.
impl<L: Kinds> Drop for Session<L> {
    fn drop(self) {
        let Session {
            shares: _,
            newest: _,
            before: _,
            closes: _,
            destroys: _,
        } = self;
    }
}

impl<L: Kinds> Model for Session<L> {
    ghost use Rattle.foyer_core_shared.specs.Sessions.{SessionState};

    ghost Value = { SessionState };

    ghost view = { λ s. record { shares = s.shares; newest = s.newest; before = s.before; closes = s.closes; destroys = s.destroys } };
}

impl<L: Kinds> Session<L> {
    /// Gives an empty book, and the session that has all its parts: for an engine without a core, which notes no step. Requires that `L`
    /// has the names and the number of parts of `blanks`.
    pub fn first(blanks: Blanks) -> (Books<L>, Session<L>)
        requires { AreOf L.name_of L.all blanks }
        ensures none { result.0 ≡ none }
        ensures all { result.1.shares ≡ record { parts = L.all; amounts = none } }
        ensures fresh { (result.1.newest ≡ None) × (result.1.before ≡ None) × (result.1.closes ≡ 0) × (result.1.destroys ≡ 0) }
    {
        let (books, shares) = blanks.open::<L>();
        let session = Session {
            shares,
            newest: None,
            before: None,
            closes: 0,
            destroys: 0,
        };
        (books, session)
    }

    /// Splits off a session with this many parts, at least one and fewer than it has. The new session has no steps and no briefs.
    pub fn split(&mut self, parts: u64) -> Session<L>
        requires some { 0 < parts }
        requires fewer { parts < self.old.shares.parts }
        ensures given { result.shares ≡ record { parts = parts; amounts = none } }
        ensures fresh { (result.newest ≡ None) × (result.before ≡ None) × (result.closes ≡ 0) × (result.destroys ≡ 0) }
        ensures ends { (self.new.closes ≡ self.old.closes) × (self.new.destroys ≡ self.old.destroys) }
        ensures left { (self.new.shares.parts + parts ≡ self.old.shares.parts) × (self.new.shares.amounts ≡ self.old.shares.amounts) }
        ensures briefs { (self.new.newest ≡ self.old.newest) × (self.new.before ≡ self.old.before) }
    {
        let shares = self.shares.split(parts);
        Session {
            shares,
            newest: None,
            before: None,
            closes: 0,
            destroys: 0,
        }
    }

    /// Takes in another session's parts and steps, and keeps its own briefs.
    pub fn join(&mut self, other: Session<L>)
        ensures shares { self.new.shares ≡ record { parts = self.old.shares.parts + other.shares.parts; amounts = both self.old.shares.amounts other.shares.amounts } }
        ensures briefs { (self.new.newest ≡ self.old.newest) × (self.new.before ≡ self.old.before) }
        ensures ends { (self.new.closes ≡ saturated (self.old.closes + other.closes)) × (self.new.destroys ≡ saturated (self.old.destroys + other.destroys)) }
        ensures none { (other.closes ≡ 0 → self.new.closes ≡ self.old.closes) × (other.destroys ≡ 0 → self.new.destroys ≡ self.old.destroys) }
    {
        let Session {
            shares,
            newest: _,
            before: _,
            closes,
            destroys,
        } = other;
        self.shares.merge(shares);
        self.closes = self.closes.saturating_add(closes);
        self.destroys = self.destroys.saturating_add(destroys);
    }

    // Makes this the newest brief. Only `Locked::step` and `Locked::end_judged` call it, so that a session never names a step that wasn't
    // made.
    fn note(&mut self, brief: Brief)
        ensures noted { (self.new.newest ≡ Some brief) × (self.new.before ≡ self.old.newest) }
        ensures shares { self.new.shares ≡ self.old.shares }
        ensures ends { CountsEnds self.old self.new brief.step }
    {
        self.before = self.newest;
        self.newest = Some(brief);
        if brief.step.is_close() {
            self.closes = self.closes.saturating_add(1);
        }
        if brief.step.is_destroy() {
            self.destroys = self.destroys.saturating_add(1);
        }
    }
}

/// A core, and the book that counts its steps by their kinds. If `N` says so, the steps' notes are there too. Some history leads from an
/// opening to the core, with as many steps of each kind as the book counts.
pub struct NotedCore<L, K, V, P, A, N>
where
    L: Kinds,
    K: Code<A>,
    V: Code<A>,
    P: Properties + Drop,
    A: Allocator,
    N: Noting,
{
    core: Core<K, V, P, A>,
    notes: Option<Notes<A>>,
    calls: Books<L>,
    noting: PhantomData<N>,
}

// Written out, so that it is proved once.
impl<L, K, V, P, A, N> Drop for NotedCore<L, K, V, P, A, N>
where
    L: Kinds,
    K: Code<A> + Drop,
    V: Code<A> + Drop,
    P: Properties + Drop,
    A: Allocator,
    N: Noting,
{
    fn drop(self) {
        let NotedCore {
            core: _,
            notes: _,
            calls: _,
            noting: _,
        } = self;
    }
}

impl<L, K, V, P, A, N> Model for NotedCore<L, K, V, P, A, N>
where
    L: Kinds,
    K: Code<A>,
    V: Code<A>,
    P: Properties + Drop,
    A: Allocator,
    N: Noting,
{
    ghost use Rattle.foyer_core_steps.specs.Content.{meaning};
    ghost use Rattle.std.specs.Coded.{codes};
    ghost use Rattle.std_collections.specs.Layout.HashMap.{hash_map_code};
    ghost use Rattle.foyer_block_index.specs.Index.{index_map_code};
    ghost use Rattle.foyer_core_shared.specs.Codes.{fits_code};
    ghost use Rattle.foyer_core_shared.specs.Behind.{kept_notes};
    ghost use Rattle.foyer_core_shared.specs.Noted.{NotedState, IsNotedCore};

    ghost Value = { NotedState K V P A };

    ghost coded = { Prim.hlevel (codes, index_map_code, fits_code, hash_map_code) };

    ghost view = { λ n. record { core = n.core; notes = kept_notes n.notes; calls = n.calls } };

    ghost invariant = { λ n. IsNotedCore N.keeps (meaning K.encoding V.encoding K.is_encodable V.is_encodable K.is_decodable V.is_decodable P.age)
        n.core (kept_notes n.notes) n.calls };
}

/// A noted core, with the `Env` that it borrows at each step.
pub struct Locked<L, K, V, P, A, E, C, N>
where
    L: Kinds,
    K: Code<A>,
    V: Code<A>,
    P: Properties + Drop,
    A: Allocator,
    E: EvictionPicker,
    C: StorageFilterCondition,
    N: Noting,
{
    noted: NotedCore<L, K, V, P, A, N>,
    env: Env<E, C>,
    // How it was opened.
    mode: RecoverMode,
}

// Written out, so that it is proved once.
impl<L, K, V, P, A, E, C, N> Drop for Locked<L, K, V, P, A, E, C, N>
where
    L: Kinds,
    K: Code<A> + Drop,
    V: Code<A> + Drop,
    P: Properties + Drop,
    A: Allocator,
    E: EvictionPicker,
    C: StorageFilterCondition,
    N: Noting,
{
    fn drop(self) {
        let Locked {
            noted: _,
            env: _,
            mode: _,
        } = self;
    }
}

// Begins the notes without any, if notes are kept.
fn first_notes<A: Allocator + Clone>(alloc: &A, keeps_notes: bool) -> Result<Option<Notes<A>>>
    ensures none { IfOk result (λ notes. kept_notes notes ≡ notes_at_first keeps_notes) }
    ensures refused { IsOkUnless result Memory }
{
    if !keeps_notes {
        return Ok(None);
    }
    let notes = Notes::new(alloc.clone()?)?;
    Ok(Some(notes))
}

// Makes room for one more note, if notes are kept.
fn reserve<A: Allocator + Clone>(notes: &mut Option<Notes<A>>) -> Result<()>
    ensures room { OnOk result (HasRoom notes.new) }
    ensures same { kept_notes notes.new ≡ kept_notes notes.old }
    ensures kept { IfErr result (λ e. (e ≡ Memory) × (kept_notes notes.old ≢ None)) }
{
    match notes {
        Some(notes) => notes.reserve(),
        None => Ok(()),
    }
}

// Keeps one more note, if notes are kept.
fn note<A: Allocator + Clone>(notes: &mut Option<Notes<A>>, brief: Brief)
    requires { HasRoom notes.old }
    ensures { kept_notes notes.new ≡ and_note brief (kept_notes notes.old) }
{
    if let Some(notes) = notes {
        notes.push(brief);
    }
}

impl<L, K, V, P, A, E, C, N> Locked<L, K, V, P, A, E, C, N>
where
    L: Kinds,
    K: Code<A> + Drop,
    V: Code<A> + Drop,
    P: Properties + Drop,
    A: Allocator + Clone,
    E: EvictionPicker,
    C: StorageFilterCondition,
    N: Noting,
{
    ghost use Rattle.std.specs.Prelude.{◌⊎◌, ◌≤◌, ℕ, Bool, List, ◌++◌, Result, Err, length, option_map, true};
    ghost use Rattle.std.specs.declared.vec.Vec.{Vec};
    ghost use Rattle.foyer_core_steps.specs.Answered.{HandsBack, Describes, IsPicked, MayFail};
    ghost use Rattle.foyer_core_steps.specs.Opened.{IsOpenedFrom};
    ghost use Rattle.foyer_core_steps.specs.Refines.{Refines};
    ghost use Rattle.foyer_core_steps.specs.Scanning.{IsJudged};
    ghost use Rattle.foyer_core_steps.specs.Showing.{HaveLearned, IsShown};
    ghost use Rattle.foyer_core_steps.specs.declared.reply.Reply.TheVariants as reply;
    ghost use Rattle.foyer_core_steps.specs.declared.step.Step.TheVariants as steps;
    ghost use Rattle.foyer_device_page.specs.declared.error.Error.{Error};
    ghost use Rattle.foyer_device_page.specs.declared.error.Error.TheVariants.{Config, Recover, SequenceEnd};
    ghost use Rattle.foyer_io_disk.specs.Disk.{SurelyCame};
    ghost use Rattle.foyer_block_recover.specs.Recovery.{IsRefused, marks_of};
    ghost use Rattle.foyer_block_recover.specs.Sources.{AreSources, sure_of};
    ghost use Rattle.foyer_block_recover.specs.declared.block.recover.RecoverMode.TheVariants as recover_mode;
    ghost use Rattle.foyer_core_steps.specs.Sizes.{AreValid, sizes_in};
    ghost use Rattle.foyer_block_manager.specs.Shown.{evictable_below};
    ghost use Rattle.foyer_core_shared.specs.Briefs.{brief_of, step_brief};
    ghost use Rattle.foyer_core_shared.specs.Chunks.{all_of};
    ghost use Rattle.foyer_core_shared.specs.History.{BeginAlike, BeginsWith, IsLegal, Made};
    ghost use Rattle.foyer_core_shared.specs.Replies.{may_reply};

    /// Opens a core as `Core::open_with` does, with the session that has all parts. If `N` says so, the notes of all steps are kept. They
    /// take memory as long as the core is there. `Memory` is also answered if an allocator's clone is refused. Requires that `L` has the
    /// names and the number of parts of `blanks`.
    pub fn open<D: Disk>(
        alloc: A,
        mut env: Env<E, C>,
        settings: Settings,
        disk: &mut D,
        mode: RecoverMode,
        marks: &[Tombstone],
        listings: Listings<A, D>,
        blanks: Blanks,
    ) -> Result<(Locked<L, K, V, P, A, E, C, N>, Session<L>)>
        requires { AreOf L.name_of L.all blanks }
        ensures opened { (bytes : ℕ → ℕ → ℕ) (failed : ℕ → ℕ → Bool)
            → AreSources (sizes_in settings) settings.blocks listings.slots.items bytes (D.byte_at disk.old) failed
            → IfOk result (λ r. IsOpenedFrom settings bytes (sure_of (sizes_in settings) listings.slots.items failed
            (SurelyCame (D.surely_has disk.old) (D.surely_lies disk.old) (D.faults disk.old) (D.faults disk.new))) mode (marks_of marks.now)
            ((mode ≡ recover_mode.None) ⊎ D.is_known disk.old) r.0.noted.core) }
        ensures begins { (bytes : ℕ → ℕ → ℕ) (failed : ℕ → ℕ → Bool)
            → AreSources (sizes_in settings) settings.blocks listings.slots.items bytes (D.byte_at disk.old) failed
            → IfOk result (λ r. BeginsWith
            (meaning K.encoding V.encoding K.is_encodable V.is_encodable K.is_decodable V.is_decodable P.age)
            settings bytes (sure_of (sizes_in settings) listings.slots.items failed
            (SurelyCame (D.surely_has disk.old) (D.surely_lies disk.old) (D.faults disk.old) (D.faults disk.new))) mode (marks_of marks.now)
            ((mode ≡ recover_mode.None) ⊎ D.is_known disk.old) r.0.noted.core) }
        ensures mode { IfOk result (λ r. r.0.mode ≡ mode) }
        ensures fresh { IfOk result (λ r. (r.0.noted.calls ≡ none) × (r.0.noted.notes ≡ notes_at_first N.keeps)) }
        ensures session { IfOk result (λ r. (r.1.shares ≡ record { parts = L.all; amounts = none }) × (r.1.newest ≡ None) × (r.1.before ≡ None)) }
        ensures ends { IfOk result (λ r. (r.1.closes ≡ 0) × (r.1.destroys ≡ 0)) }
        ensures shown { IfOk result (λ r. HaveLearned E.begins E.learns settings.blocks settings.block_size
            (evictable_below r.0.noted.core.manager.blocks (length r.0.noted.core.manager.blocks)) env.pickers.items r.0.env.pickers.items) }
        ensures lent { IfOk result (λ r. (r.0.env.reinsertion ≡ env.reinsertion) × (r.0.env.io ≡ env.io)) }
        ensures sound { IfOk result (λ _. AreValid settings) }
        ensures unsound { (AreValid settings → ⊥) → result ≡ Err Config }
        ensures refused { IfErr result (λ e. (e ≡ Memory) ⊎ ((e ≡ Config) × (AreValid settings → ⊥))
            ⊎ ((e ≡ Recover) × (mode ≡ recover_mode.Strict)) ⊎ ((e ≡ SequenceEnd) × (mode ≡ recover_mode.None → marks.now ≢ []))) }
        ensures cause { (bytes : ℕ → ℕ → ℕ) (failed : ℕ → ℕ → Bool) → AreValid settings → (mode ≡ recover_mode.None) ⊎ D.is_known disk.old
            → AreSources (sizes_in settings) settings.blocks listings.slots.items bytes (D.byte_at disk.old) failed
            → IfErr result (IsRefused (sizes_in settings) settings.blocks bytes (sure_of (sizes_in settings) listings.slots.items failed
            (SurelyCame (D.surely_has disk.old) (D.surely_lies disk.old) (D.faults disk.old) (D.faults disk.new))) mode (marks_of marks.now)) }
        ensures unread { mode ≡ recover_mode.None → disk.new ≡ disk.old }
        ensures known { D.is_known disk.old → D.is_known disk.new }
        ensures same { D.byte_at disk.new ≡ D.byte_at disk.old }
        ensures has { (b o n : ℕ) → D.surely_has disk.old b o n → D.surely_has disk.new b o n }
        ensures lies { (b o n : ℕ) → D.surely_lies disk.old b o n → D.surely_lies disk.new b o n }
        ensures counted { D.faults disk.old ≤ D.faults disk.new }
    {
        settings.check()?;
        let notes = first_notes(&alloc, N::keeps())?;
        let core = Core::open_with(alloc, &mut env, settings, disk, mode, marks, listings)?;
        let (calls, shares) = blanks.open::<L>();
        let noted = NotedCore {
            core,
            notes,
            calls,
            noting: PhantomData,
        };
        let locked = Locked { noted, env, mode };
        let session = Session {
            shares,
            newest: None,
            before: None,
            closes: 0,
            destroys: 0,
        };
        Ok((locked, session))
    }

    /// The mode in which it was opened.
    pub fn recover_mode(&self) -> RecoverMode
        ensures { result ≡ self.now.mode }
    {
        self.mode
    }

    /// Applies a step as `Core::apply` does, notes it, and counts it with the session's share, as one of its kind. The session must have a
    /// part. The session's newest brief is then that of the step and of this very reply. A history that led to the core leads, with this
    /// step added, to the new core. It has the same opening. A filter that is asked is passed `io`.
    ///
    /// If notes are kept and memory for one is refused, `Err` returns the step, and nothing changed. `Err` has no other cause.
    pub fn step(
        &mut self,
        session: &mut Session<L>,
        io: IoState,
        step: Step<K, V, P, A>,
    ) -> std::result::Result<Reply<K, V, P, A>, Step<K, V, P, A>>
        requires { 0 < session.old.shares.parts }
        ensures back { IfOk result (λ answer. HandsBack step answer self.old.noted.core self.new.noted.core) }
        ensures issued { IfOk result (λ answer. Describes K.is_decodable V.is_decodable K.encoding V.encoding
            step answer self.old.noted.core self.new.noted.core) }
        ensures meets { IfOk result (λ answer. Refines
            (meaning K.encoding V.encoding K.is_encodable V.is_encodable K.is_decodable V.is_decodable P.age)
            step answer self.old.noted.core self.new.noted.core) }
        ensures history { IfOk result (λ answer. (run : List (Made K V P A))
            (before : IsLegal (meaning K.encoding V.encoding K.is_encodable V.is_encodable K.is_decodable V.is_decodable P.age) run self.old.noted.core)
            → (after : IsLegal (meaning K.encoding V.encoding K.is_encodable V.is_encodable K.is_decodable V.is_decodable P.age)
            (run ++ record { step = step; reply = answer } ∷ []) self.new.noted.core)
            × BeginAlike (meaning K.encoding V.encoding K.is_encodable V.is_encodable K.is_decodable V.is_decodable P.age)
            run (run ++ record { step = step; reply = answer } ∷ []) self.old.noted.core self.new.noted.core before after) }
        ensures replied { IfOk result (λ answer. may_reply step answer ≡ true) }
        ensures failed { IfOk result (λ answer. answer ≡ reply.Failed → MayFail step self.old.noted.core) }
        ensures picks { step ≡ steps.ReclaimBegin → IfOk result (λ answer.
            IsPicked E.answer E.marks self.old.env.pickers.items answer self.old.noted.core self.new.noted.core) }
        ensures judged { (block : ℕ) (outcome : Result (Vec ℕ A) Error) → step ≡ steps.ReclaimRead block outcome
            → IfOk result (λ answer. IsJudged C.may_answer self.old.env.reinsertion io block outcome answer self.old.noted.core) }
        ensures shown { IfOk result (λ answer. IsShown E.learns E.forgets step answer self.old.noted.core self.new.noted.core.manager
            self.old.env.pickers.items self.new.env.pickers.items) }
        ensures lent { (self.new.env.reinsertion ≡ self.old.env.reinsertion) × OnOk result (self.new.env.io ≡ io) }
        ensures noted { IfOk result (λ answer. (self.new.noted.notes ≡ and_note (brief_of step answer) self.old.noted.notes)
            × (session.new.newest ≡ Some (brief_of step answer)) × (session.new.before ≡ session.old.newest)) }
        ensures ends { OnOk result (CountsEnds session.old session.new (step_brief step)) }
        ensures counted { IfOk result (λ answer. (self.new.noted.calls ≡ grown (kind_of (brief_of step answer)) self.old.noted.calls)
            × (session.new.shares ≡ record { parts = session.old.shares.parts; amounts = grown (kind_of (brief_of step answer)) session.old.shares.amounts })) }
        ensures roomless { IfErr result (λ given. (given ≡ step) × (session.new ≡ session.old) × (N.keeps ≡ true)
            × (self.new.noted ≡ self.old.noted) × (self.new.env ≡ self.old.env)) }
    {
        if reserve(&mut self.noted.notes).is_err() {
            return Err(step);
        }
        self.env.set_io(io);
        let asked = StepBrief::of(&step);
        let reply = self.noted.core.apply(&mut self.env, step);
        let brief = Brief {
            step: asked,
            reply: ReplyBrief::of(&reply),
        };
        note(&mut self.noted.notes, brief);
        self.noted.calls.note(&mut session.shares, brief.kind());
        session.note(brief);
        Ok(reply)
    }

    /// Sets the filter of reinsertions, or none, from now on, and gives the one before.
    pub fn replace_reinsertion(
        &mut self,
        filter: Option<StorageFilter<C, Global>>,
    ) -> Option<StorageFilter<C, Global>>
        ensures before { result ≡ self.old.env.reinsertion }
        ensures filter { self.new.env ≡ record self.old.env { reinsertion = filter } }
        ensures same { self.new.noted ≡ self.old.noted }
    {
        self.env.replace_reinsertion(filter)
    }

    /// The core, which its steps alone change.
    pub fn core(&self) -> &Core<K, V, P, A>
        ensures { result.now ≡ self.now.noted.core }
    {
        &self.noted.core
    }

    /// Gives the notes of all steps, if notes are kept.
    pub fn notes(&self) -> Option<&Notes<A>>
        ensures { option_map (λ n. all_of n.now.full.items n.now.last.items) result ≡ self.now.noted.notes }
    {
        self.noted.notes.as_ref()
    }

    /// Changes nothing. Its contract says that the session with all parts knows how many steps of each kind were made. If notes are kept,
    /// it also knows how many notes of each kind there are.
    pub fn audit(&mut self, all: &mut Session<L>)
        requires { all.old.shares.parts ≡ L.all }
        ensures count { self.new.noted.calls ≡ all.new.shares.amounts }
        ensures notes { ForSome self.new.noted.notes (λ notes. tallied notes ≡ all.new.shares.amounts) }
        ensures same { (self.new.noted ≡ self.old.noted) × (self.new.env ≡ self.old.env) }
        ensures session { all.new ≡ all.old }
    {
        self.noted.calls.audit(&mut all.shares);
    }
}
