ghost use Rattle.std.specs.Prelude.{◌≡◌, ℕ, ◌^◌, ◌<◌, List, [], All, length, replicate};
ghost use Rattle.sched_text.specs.Text.{runs_of, line_of, schedule_text, IsTextOf};
ghost use Rattle.sched_text.specs.FirstBad.{IsFirstBad};
ghost use Rattle.sched_text.specs.Runs.{steps_of, AreMaximal};
ghost use Rattle.sched_text.specs.declared.run.Run.{Run};

/// The runs of a schedule have its steps, none is empty, and neighbours have different threads; no other
/// runs are so.
pub fn runs_are_the_schedule()
    ensures steps { (s : List ℕ) → steps_of (runs_of s) ≡ s }
    ensures maximal { (s : List ℕ) → AreMaximal (runs_of s) }
    ensures only { (runs : List Run) → AreMaximal runs → runs_of (steps_of runs) ≡ runs }
{}

/// The text of a schedule of one thread is one line, and that of the empty schedule is empty.
pub fn one_thread_one_line()
    ensures line { (count thread : ℕ) → 0 < count →
        schedule_text (replicate count thread) ≡ line_of (record { thread = thread; count = count }) }
    ensures empty { schedule_text [] ≡ [] }
{}

/// Schedules with one text are one schedule.
pub fn one_text_one_schedule()
    ensures { (s t : List ℕ) → All (λ thread. thread < 2 ^ 64) s → All (λ thread. thread < 2 ^ 64) t →
        length s < 2 ^ 64 → length t < 2 ^ 64 → schedule_text s ≡ schedule_text t → s ≡ t }
{}

/// Bytes are the text of one schedule at most.
pub fn one_schedule_of_a_text()
    ensures { (s t bytes : List ℕ) → IsTextOf s bytes → IsTextOf t bytes → s ≡ t }
{}

/// Bytes that are the text of a schedule have no first bad line, and no bytes have two.
pub fn one_first_bad_line()
    ensures none { (s bytes : List ℕ) (line : ℕ) → IsTextOf s bytes → IsFirstBad bytes line → ⊥ }
    ensures one { (bytes : List ℕ) (m n : ℕ) → IsFirstBad bytes m → IsFirstBad bytes n → m ≡ n }
{}
