//! The part of the text in C that is the same for every program.

/// What stands in front of the constants of the modes.
pub const OPENING: &str = "#define _POSIX_C_SOURCE 200809L
#include <inttypes.h>
#include <pthread.h>
#include <sched.h>
#include <stdatomic.h>
#include <stdint.h>
#include <stdio.h>
#include <stdlib.h>
#include <string.h>

/* Whether each section draws a ticket, so that their order is known, and whether statements count as fuel. */
#ifndef SECT_ORDER
#define SECT_ORDER 1
#endif
#ifndef SECT_COUNT_FUEL
#define SECT_COUNT_FUEL 1
#endif

/* Gray's modes. The holders of a key are counted in one word, by mode; above the counts stands that somebody waits. */
enum sect_mode { SECT_IS, SECT_IX, SECT_S, SECT_SIX, SECT_X };
";

/// Keys, plans, statements, the outcome and threads.
pub const RUNTIME: &str = "#define SECT_WAITED (UINT64_C(1) << 60)

/* A key that threads hold: of all objects, of a class, or of an object. */
struct sect_key {
  _Atomic uint64_t word;
};

/* The key of all objects or of a class, alone on its cache line. */
struct sect_whole {
  _Alignas(64) struct sect_key key;
};

/* What stands in front of each object's fields. Objects' keys ascend by number. */
struct sect_object {
  struct sect_key key;
  uint64_t number;
  struct sect_object *next; /* the one that its thread made after it */
  unsigned record;
};

struct sect_grip {
  struct sect_key *key;
  enum sect_mode mode;
  uint64_t number; /* of an object */
};

enum sect_end { SECT_DONE, SECT_NULL, SECT_OVERFLOW, SECT_FUEL };

/* A section that a thread has left: its place among all, and how much the thread had printed then. */
struct sect_left {
  uint64_t ticket;
  size_t printed;
};

struct sect_thread {
  unsigned number;
  enum sect_end end;
  uint64_t fuel;
  struct sect_grip *grips; /* the plan: first the keys of all objects and of classes, then those of objects */
  size_t wholes, count, room;
  struct sect_object *first, **last; /* what it made */
  uint64_t made;
  int64_t *printed;
  size_t prints, print_room;
  struct sect_left *left;
  size_t leaves, left_room;
  pthread_cond_t roused; /* it waits for a key */
  int is_roused;
  struct sect_key *wanted;
  enum sect_mode mode;
  struct sect_thread *behind; /* the next that waits in its bucket */
  void (*run)(struct sect_thread *);
  pthread_t id;
  int is_started;
};

static void sect_no_memory(void) {
  fputs(\"out of memory\\n\", stdout);
  fflush(stdout);
  _Exit(3);
}

/* Makes room for one more of this size. */
static void *sect_grown(void *list, size_t count, size_t *room, size_t size) {
  if (count < *room) return list;
  *room = *room == 0 ? 16 : 2 * *room;
  list = realloc(list, *room * size);
  if (list == NULL) sect_no_memory();
  return list;
}

/* ---- keys: one compare-and-swap takes one; who can't have it lets others run, and then waits in a bucket ---- */

#ifndef SECT_PAUSES
#define SECT_PAUSES 2
#endif
#ifndef SECT_YIELDS
#define SECT_YIELDS 20
#endif
#define SECT_BUCKETS 64

static struct sect_bucket {
  _Alignas(64) pthread_mutex_t mutex;
  struct sect_thread *first, *last;
} sect_buckets[SECT_BUCKETS];

static struct sect_bucket *sect_bucket_of(const struct sect_key *key) {
  return &sect_buckets[((uintptr_t)key / 64 * UINT64_C(0x9e3779b97f4a7c15) >> 32) % SECT_BUCKETS];
}

static inline int sect_try(struct sect_key *key, enum sect_mode mode) {
  uint64_t word = atomic_load_explicit(&key->word, memory_order_relaxed);
  while (!(word & sect_against[mode]))
    if (atomic_compare_exchange_weak_explicit(&key->word, &word, word + sect_unit[mode], memory_order_acquire,
                                              memory_order_relaxed))
      return 1;
  return 0;
}

/* Lets others run, longer each round: whoever looks at a key all the time takes its cache line from the holder. */
static void sect_pause(unsigned round) {
#if defined(__GNUC__) && (defined(__x86_64__) || defined(__i386__))
  if (round < SECT_PAUSES) {
    for (unsigned i = 0; i < 2u << round; i++) __builtin_ia32_pause();
    return;
  }
#endif
  unsigned yields = round < SECT_PAUSES ? 1 : round < SECT_PAUSES + 4 ? 1u << (round - SECT_PAUSES) : 16;
  for (unsigned i = 0; i < yields; i++) sched_yield();
}

/* Waits until somebody who gave the key back rouses this thread, unless the key may be taken by now. */
static void sect_wait(struct sect_thread *me, struct sect_key *key, enum sect_mode mode) {
  struct sect_bucket *bucket = sect_bucket_of(key);
  pthread_mutex_lock(&bucket->mutex);
  uint64_t word = atomic_load_explicit(&key->word, memory_order_relaxed);
  while ((word & sect_against[mode]) && !(word & SECT_WAITED))
    if (atomic_compare_exchange_weak_explicit(&key->word, &word, word | SECT_WAITED, memory_order_relaxed,
                                              memory_order_relaxed))
      word |= SECT_WAITED;
  if (word & sect_against[mode]) {
    me->wanted = key;
    me->mode = mode;
    me->is_roused = 0;
    me->behind = NULL;
    if (bucket->last == NULL) bucket->first = me; else bucket->last->behind = me;
    bucket->last = me;
    while (!me->is_roused) pthread_cond_wait(&me->roused, &bucket->mutex);
  }
  pthread_mutex_unlock(&bucket->mutex);
}

/* Rouses the first threads that wait for the key as long as they fit together; each tries again for itself. */
static void sect_rouse(struct sect_key *key) {
  struct sect_bucket *bucket = sect_bucket_of(key);
  pthread_mutex_lock(&bucket->mutex);
  uint64_t word = atomic_load_explicit(&key->word, memory_order_relaxed);
  struct sect_thread **place = &bucket->first, *last = NULL;
  int is_waited = 0;
  while (*place != NULL) {
    struct sect_thread *thread = *place;
    if (thread->wanted == key && !is_waited && !(word & sect_against[thread->mode])) {
      word += sect_unit[thread->mode];
      *place = thread->behind;
      thread->is_roused = 1;
      pthread_cond_signal(&thread->roused);
    } else {
      is_waited |= thread->wanted == key;
      last = thread;
      place = &thread->behind;
    }
  }
  bucket->last = last;
  if (!is_waited) atomic_fetch_and_explicit(&key->word, ~SECT_WAITED, memory_order_relaxed);
  pthread_mutex_unlock(&bucket->mutex);
}

/* Takes a key that couldn't be had at once. */
static void sect_await(struct sect_thread *me, struct sect_key *key, enum sect_mode mode) {
  unsigned round = 0;
  do {
    if (round < SECT_PAUSES + SECT_YIELDS) sect_pause(round++); else sect_wait(me, key, mode);
  } while (!sect_try(key, mode));
}

static inline void sect_take_key(struct sect_thread *me, struct sect_key *key, enum sect_mode mode) {
  if (!sect_try(key, mode)) sect_await(me, key, mode);
}

static inline void sect_give_key(struct sect_key *key, enum sect_mode mode) {
  if (atomic_fetch_sub_explicit(&key->word, sect_unit[mode], memory_order_release) & SECT_WAITED) sect_rouse(key);
}

/* ---- plans: the keys that are the same in every state, then those of the objects that the paths denote ---- */

/* A field that a look follows may be written meanwhile. */
#define SECT_LOOK(field) atomic_load_explicit(field, memory_order_acquire)
#define SECT_GET(field) atomic_load_explicit(field, memory_order_relaxed)
#define SECT_PUT(field, value) atomic_store_explicit(field, value, memory_order_release)

/* Wants the keys of a table. Nothing is wanted before. */
static void sect_want_wholes(struct sect_thread *me, const struct sect_grip *plan) {
  for (; plan->key != NULL; plan++) {
    me->grips = sect_grown(me->grips, me->count, &me->room, sizeof *me->grips);
    me->grips[me->count++] = *plan;
  }
  me->wholes = me->count;
}

static inline void sect_plan(struct sect_thread *me, const struct sect_grip *plan) {
  if (plan->key != NULL) sect_want_wholes(me, plan);
}

/* Wants an object too. Numbers keep ascending, and what is wanted for reading and for writing is wanted for writing. */
static void sect_want_among(struct sect_thread *me, struct sect_object *object, enum sect_mode mode) {
  size_t place = me->count;
  while (place > me->wholes && me->grips[place - 1].number > object->number) place--;
  if (place > me->wholes && me->grips[place - 1].key == &object->key) {
    if (mode == SECT_X) me->grips[place - 1].mode = mode;
    return;
  }
  me->grips = sect_grown(me->grips, me->count, &me->room, sizeof *me->grips);
  memmove(&me->grips[place + 1], &me->grips[place], (me->count++ - place) * sizeof *me->grips);
  me->grips[place] = (struct sect_grip){ &object->key, mode, object->number };
}

static inline void sect_want(struct sect_thread *me, struct sect_object *object, enum sect_mode mode) {
  if (me->count == me->wholes && me->count < me->room)
    me->grips[me->count++] = (struct sect_grip){ &object->key, mode, object->number };
  else
    sect_want_among(me, object, mode);
}

static void sect_take_all(struct sect_thread *me) {
  for (size_t i = 0; i < me->count; i++) sect_take_key(me, me->grips[i].key, me->grips[i].mode);
}

/* Many sections have one key. */
static inline void sect_take(struct sect_thread *me) {
  if (me->count == 1) sect_take_key(me, me->grips[0].key, me->grips[0].mode); else sect_take_all(me);
}

static int sect_holds(const struct sect_thread *me, struct sect_object *object, enum sect_mode mode) {
  for (size_t i = me->wholes; i < me->count; i++)
    if (me->grips[i].key == &object->key) return mode == SECT_S || me->grips[i].mode == SECT_X;
  return 0;
}

static void sect_give_all(struct sect_thread *me) {
  for (size_t i = me->count; i > 0; i--) sect_give_key(me->grips[i - 1].key, me->grips[i - 1].mode);
}

static inline void sect_give(struct sect_thread *me) {
  if (me->count == 1) sect_give_key(me->grips[0].key, me->grips[0].mode); else sect_give_all(me);
  me->count = me->wholes = 0;
}

/* Draws the ticket of a section. It is drawn before the first key goes back, so that tickets follow the order in which
   sections that exclude each other had their keys. */
#if SECT_ORDER
static _Alignas(64) _Atomic uint64_t sect_tickets;
#endif
static void sect_ticket(struct sect_thread *me) {
#if SECT_ORDER
  me->left = sect_grown(me->left, me->leaves, &me->left_room, sizeof *me->left);
  me->left[me->leaves].ticket = atomic_fetch_add_explicit(&sect_tickets, 1, memory_order_relaxed);
  me->left[me->leaves++].printed = me->prints;
#else
  (void)me;
#endif
}

/* ---- statements ---- */

#if SECT_COUNT_FUEL
#define SECT_STEP(over) do { if (fuel == 0) { end = SECT_FUEL; goto over; } fuel--; } while (0)
#else
#define SECT_STEP(over) ((void)0)
#endif

/* Each tells whether the result is out of range, and then changes nothing. */
static inline int sect_add(int64_t *to, int64_t a, int64_t b) {
  if (b > 0 ? a > INT64_MAX - b : a < INT64_MIN - b) return 1;
  *to = a + b;
  return 0;
}
static inline int sect_subtract(int64_t *to, int64_t a, int64_t b) {
  if (b < 0 ? a > INT64_MAX + b : a < INT64_MIN + b) return 1;
  *to = a - b;
  return 0;
}
static inline int sect_multiply(int64_t *to, int64_t a, int64_t b) {
  if (a > 0 ? (b > 0 ? a > INT64_MAX / b : b < INT64_MIN / a)
            : (b > 0 ? a < INT64_MIN / b : a != 0 && b < INT64_MAX / a)) return 1;
  *to = a * b;
  return 0;
}

static inline int sect_equal(int64_t a, int64_t b) { return a == b; }
static inline int sect_less(int64_t a, int64_t b) { return a < b; }
static inline int sect_at_most(int64_t a, int64_t b) { return a <= b; }
static inline int sect_same(const void *a, const void *b) { return a == b; }

#define SECT_MADE(thread, number) (((UINT64_C(1) + (thread)) << 40) + (number))

static void *sect_make(struct sect_thread *me, size_t size, unsigned record) {
  struct sect_object *object = calloc(1, size);
  if (object == NULL) sect_no_memory();
  object->number = SECT_MADE(me->number, me->made++);
  object->record = record;
  *me->last = object;
  me->last = &object->next;
  return object;
}

static void sect_print(struct sect_thread *me, int64_t value) {
  me->printed = sect_grown(me->printed, me->prints, &me->print_room, sizeof *me->printed);
  me->printed[me->prints++] = value;
}

/* ---- the outcome ---- */

struct sect_program {
  unsigned threads;
  void (*const *run)(struct sect_thread *);
  struct sect_object *const *globals;
  const char *const *names;
  void (*fields)(const struct sect_program *, struct sect_object *);
};

static void sect_show_int(const char *field, int64_t value) { printf(\" %s=%\" PRId64, field, value); }

static void sect_show_name(const struct sect_program *program, struct sect_object *object) {
  if (object == NULL) fputs(\"null\", stdout);
  else if (object->number < SECT_MADE(0, 0)) fputs(program->names[object->number], stdout);
  else printf(\"%\" PRIu64 \"#%\" PRIu64, (object->number >> 40) - 1, object->number & ((UINT64_C(1) << 40) - 1));
}

static void sect_show_reference(const struct sect_program *program, const char *field, void *object) {
  printf(\" %s=\", field);
  sect_show_name(program, object);
}

static void sect_show_object(const struct sect_program *program, struct sect_object *object) {
  fputs(\"object \", stdout);
  sect_show_name(program, object);
  program->fields(program, object);
  putchar('\\n');
}

#if SECT_ORDER
/* The threads in the order of their tickets, and what each section printed. */
static void sect_show_order(const struct sect_program *program, const struct sect_thread *threads) {
  size_t count = 0;
  for (unsigned t = 0; t < program->threads; t++) count += threads[t].leaves;
  const struct sect_thread **order = calloc(count + 1, sizeof *order);
  size_t *next = calloc(program->threads + 1, sizeof *next);
  if (order == NULL || next == NULL) sect_no_memory();
  for (unsigned t = 0; t < program->threads; t++)
    for (size_t i = 0; i < threads[t].leaves; i++) order[threads[t].left[i].ticket] = &threads[t];
  fputs(count == 0 ? \"order none\" : \"order\", stdout);
  for (size_t i = 0; i < count; i++) printf(\" %u\", order[i]->number);
  putchar('\\n');
  for (size_t i = 0; i < count; i++) {
    const struct sect_thread *thread = order[i];
    size_t section = next[thread->number]++;
    for (size_t p = section == 0 ? 0 : thread->left[section - 1].printed; p < thread->left[section].printed; p++)
      printf(\"out %\" PRId64 \"\\n\", thread->printed[p]);
  }
  free(order);
  free(next);
}
#endif

static void sect_show(const struct sect_program *program, const struct sect_thread *threads) {
  static const char *const ends[] = { \"done\", \"null\", \"overflow\", \"fuel\" };
  for (unsigned t = 0; t < program->threads; t++) printf(\"thread %u %s\\n\", t, ends[threads[t].end]);
#if SECT_ORDER
  sect_show_order(program, threads);
#endif
  for (struct sect_object *const *global = program->globals; *global != NULL; global++)
    sect_show_object(program, *global);
  for (unsigned t = 0; t < program->threads; t++)
    for (struct sect_object *object = threads[t].first; object != NULL; object = object->next)
      sect_show_object(program, object);
}

/* ---- threads ---- */

static pthread_mutex_t sect_gate = PTHREAD_MUTEX_INITIALIZER;

static void *sect_begin(void *thread) {
  struct sect_thread *me = thread;
  pthread_mutex_lock(&sect_gate); /* until all threads are there */
  pthread_mutex_unlock(&sect_gate);
  me->run(me);
  return NULL;
}

static void sect_run(const struct sect_program *program, struct sect_thread *threads, uint64_t fuel) {
  for (unsigned i = 0; i < SECT_BUCKETS; i++) pthread_mutex_init(&sect_buckets[i].mutex, NULL);
  pthread_mutex_lock(&sect_gate);
  for (unsigned t = 0; t < program->threads; t++) {
    struct sect_thread *thread = &threads[t];
    thread->number = t;
    thread->fuel = fuel;
    thread->last = &thread->first;
    thread->run = program->run[t];
    pthread_cond_init(&thread->roused, NULL);
    thread->is_started = pthread_create(&thread->id, NULL, sect_begin, thread) == 0;
  }
  pthread_mutex_unlock(&sect_gate);
  for (unsigned t = 0; t < program->threads; t++)
    if (threads[t].is_started) pthread_join(threads[t].id, NULL);
  for (unsigned t = 0; t < program->threads; t++) /* of one that couldn't be started nobody has waited for a key */
    if (!threads[t].is_started) threads[t].run(&threads[t]);
}

static void sect_free(const struct sect_program *program, struct sect_thread *threads) {
  for (unsigned t = 0; t < program->threads; t++) {
    struct sect_thread *thread = &threads[t];
    while (thread->first != NULL) {
      struct sect_object *object = thread->first;
      thread->first = object->next;
      free(object);
    }
    pthread_cond_destroy(&thread->roused);
    free(thread->grips);
    free(thread->printed);
    free(thread->left);
  }
  free(threads);
}

/* The fuel that the words of the command line give, or 0 where they aren't `[--fuel N]` with N from 1 on. */
static uint64_t sect_fuel(int count, char **words) {
  if (count == 1) return 10000;
  if (count != 3 || strcmp(words[1], \"--fuel\") != 0) return 0;
  uint64_t fuel = 0;
  for (const char *digit = words[2]; *digit != '\\0'; digit++) {
    if (*digit < '0' || *digit > '9' || fuel > 1000000000) return 0;
    fuel = 10 * fuel + (uint64_t)(*digit - '0');
  }
  return fuel;
}

/* Names what not every program uses, so that no compiler warns of it. */
static void sect_unused(void) {
  (void)sect_plan; (void)sect_want; (void)sect_take; (void)sect_holds; (void)sect_ticket; (void)sect_give;
  (void)sect_add; (void)sect_subtract; (void)sect_multiply; (void)sect_equal; (void)sect_less; (void)sect_at_most;
  (void)sect_same; (void)sect_make; (void)sect_print; (void)sect_show_int; (void)sect_show_reference;
}

static int sect_main(const struct sect_program *program, int count, char **words) {
  sect_unused();
  uint64_t fuel = sect_fuel(count, words);
  if (fuel == 0) {
    fprintf(stderr, \"usage: %s [--fuel N]\\n\", count == 0 ? \"program\" : words[0]);
    return 2;
  }
  struct sect_thread *threads = calloc(program->threads + 1, sizeof *threads);
  if (threads == NULL) sect_no_memory();
  sect_run(program, threads, fuel);
  sect_show(program, threads);
  sect_free(program, threads);
  return fflush(stdout) != 0 || ferror(stdout) ? 3 : 0;
}
";
