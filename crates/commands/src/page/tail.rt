//! The page after its data. Written by `checks/page --write` from share/page.

/// The page after its data.
pub const PAGE_TAIL: &str = "</script>
<script>
'use strict';

// The page shows the lines of its data and computes nothing of the machine. The data are, for each list of moves, a
// line for each queue (queue, size, state), and for each move the line of `replay --json --registers` and a line with
// the state of its queue after it; then the count of moves. `at` is the only place that the move can have changed.

const $ = (id) => document.getElementById(id);

const KINDS = {
  A1: 'Driver posts an empty buffer', A2: 'Driver stores RDT', A3: 'Controller loads RDT',
  A4: 'Controller fetches a descriptor and its buffer', A5: 'Controller writes the descriptor back with DD',
  A6: 'Driver loads the next descriptor; with DD, takes the segment', A7: 'Controller stores RDH',
  B1: 'Driver posts a segment', B2: 'Driver stores TDT', B3: 'Controller loads TDT',
  B4: 'Controller fetches a descriptor and its buffer', B5: 'Controller has sent the segment, stores TDH',
  B6: 'Controller reports', B7: 'Driver loads the oldest outstanding report', B8: 'Driver cleans the next descriptor',
  C1: 'Driver requests enabling', C2: 'Controller loads the control word', C3: 'Controller answers the control value',
  C4: 'Driver loads the control word', C5: 'Driver requests disabling', C6: 'Driver takes back the oldest buffer',
  C7: 'Controller says that it stores no more frames', C8: 'Driver loads the quiet word',
  C9: 'Driver clears the head', C10: 'Driver clears the tail', C11: 'Driver clears the quiet word',
  C12: 'Driver clears the head word',
};
const OWNERS = { drv: 'driver', ring: 'ring', ctl: 'controller' };
const CONTROLS = ['disabled', 'enabling asked', 'enabled', 'disabling asked'];
const FLAGS = new Set(['DD', 'EOP', 'RS', 'IFCS', 'DEXT']);
const MARKS = [['words', 'head'], ['words', 'tail'], ['driver', 'fill'], ['driver', 'next'], ['controller', 'use'], ['controller', 'known']];
const PARTS = [['words', 'Shared words'], ['driver', 'Driver'], ['controller', 'Controller']];
const NAMES = { mid_frame: 'in frame', head_word: 'head word', report_due: 'report due' };
const STEP = 1000; // moves of a queue between two stored states
const ROW = 28; // pixels
const ALL_PLACES = 64; // longer rings show the places with a mark and their neighbours

// ---- reading the data

/** A queue: its moves, their states, and each thousandth state of its places. */
class Queue {
  constructor(line) {
    this.name = line.queue;
    this.size = line.size;
    this.opening = line;
    this.moves = []; // numbers of the moves that name it, from 1
    this.stored = [this.empty()];
    this.places = this.empty();
    this.reached = 0;
  }

  empty() {
    return Array.from({ length: this.size }, (_, place) => ({ place, owner: 'drv', buffer: null, descriptor: null }));
  }

  add(number, state) {
    this.moves.push(number);
    put(this.places, state);
    this.reached = this.moves.length;
    if (this.moves.length % STEP === 0) this.stored.push(this.places.slice());
  }

  /** How many of its moves are among the first `number`. */
  count(number) {
    let low = 0, high = this.moves.length;
    while (low < high) {
      const middle = (low + high) >> 1;
      if (this.moves[middle] <= number) low = middle + 1; else high = middle;
    }
    return low;
  }

  /** The state of the queue after the first `number` moves. */
  after(number, moves) {
    const count = this.count(number);
    return count ? moves[this.moves[count - 1] - 1].state : this.opening;
  }

  /** The places after the first `number` moves, from the nearest state before. */
  placesAfter(number, moves) {
    const count = this.count(number);
    if (count < this.reached || count - this.reached > STEP) {
      const index = Math.floor(count / STEP);
      this.places = this.stored[index].slice();
      this.reached = index * STEP;
    }
    for (; this.reached < count; this.reached++) put(this.places, moves[this.moves[this.reached] - 1].state);
    return this.places;
  }
}

function put(places, state) {
  if (state.at) places[state.at.place] = state.at;
}

/** The lists of moves in a text. */
function readLists(text) {
  const lists = [];
  let list = null, told = null;
  for (const object of JSON.parse(`[${text.trim().split('\\n').join(',')}]`)) {
    if (!list || list.count) {
      list = { queues: new Map(), moves: [], refused: [], count: null };
      lists.push(list);
    }
    if ('queue' in object) {
      list.queues.set(object.queue, new Queue(object));
    } else if ('move' in object) {
      told = object;
    } else if ('line' in object) {
      addMove(list, told, object);
    } else {
      list.count = object;
    }
  }
  return lists;
}

function addMove(list, told, state) {
  const [name, kind] = told.move.split(' ');
  list.moves.push({ told, state, name, kind });
  const number = list.moves.length;
  if (!told.made) list.refused.push(number);
  const queue = list.queues.get(name);
  if (queue) queue.add(number, state);
}

// ---- words for what the data say

/** The note of a move, or why it was refused. */
function noteOf(move) {
  if (!move.told.made) return `not enabled: ${move.state.obstacle}`;
  return Object.entries(move.told)
    .filter(([key]) => key !== 'move' && key !== 'made' && key === key.toLowerCase())
    .map(([key, value]) => (value === null ? 'none' : `${key} ${value}`)).join(' ');
}

function registersOf(move) {
  return Object.entries(move.told).filter(([key]) => key !== key.toLowerCase()).map(([key, value]) => `${key} ${value}`).join('  ');
}

function element(name, attributes, ...children) {
  const made = document.createElement(name);
  for (const [key, value] of Object.entries(attributes || {})) if (value !== null && value !== false) made.setAttribute(key, value);
  made.append(...children.filter((child) => child !== null));
  return made;
}

function drawn(name, attributes, text) {
  const made = document.createElementNS('http://www.w3.org/2000/svg', name);
  for (const [key, value] of Object.entries(attributes)) made.setAttribute(key, value);
  if (text !== undefined) made.textContent = text;
  return made;
}

// ---- the ring

function point(radius, turn) {
  const angle = turn * 2 * Math.PI - Math.PI / 2;
  return [radius * Math.cos(angle), radius * Math.sin(angle)];
}

function arc(from, to, outer, inner) {
  const large = to - from > 0.5 ? 1 : 0;
  const end = to - from >= 1 ? to - 1e-4 : to;
  const at = (radius, turn) => point(radius, turn).map((x) => x.toFixed(2)).join(' ');
  return `M${at(outer, from)}A${outer} ${outer} 0 ${large} 1 ${at(outer, end)}L${at(inner, end)}A${inner} ${inner} 0 ${large} 0 ${at(inner, from)}Z`;
}

/** The names at a place, two in a line. */
function labelOf(names, x, y) {
  const lines = [];
  for (let index = 0; index < names.length; index += 2) lines.push(names.slice(index, index + 2).join(' '));
  const anchor = Math.abs(x) < 12 ? 'middle' : x > 0 ? 'start' : 'end';
  const top = y > 30 ? y + 7 : y < -30 ? y - 9 * (lines.length - 1) : y + 3 - 4.5 * (lines.length - 1);
  const label = drawn('text', { 'text-anchor': anchor, class: 'mark' });
  lines.forEach((line, index) => label.append(drawn('tspan', { x, y: top + 9 * index }, line)));
  return label;
}

/** Runs of places with one owner; short rings have a run for each place. */
function runsOf(places) {
  const runs = [];
  for (const row of places) {
    const last = runs[runs.length - 1];
    if (places.length > ALL_PLACES && last && last.owner === row.owner) last.to = row.place + 1;
    else runs.push({ owner: row.owner, from: row.place, to: row.place + 1 });
  }
  return runs;
}

function marksOf(state) {
  const marks = new Map();
  for (const [part, name] of MARKS) {
    const place = state[part][name];
    marks.set(place, [...(marks.get(place) || []), name]);
  }
  return marks;
}

function ringOf(queue, places, state, at) {
  const size = queue.size;
  const counts = { drv: 0, ring: 0, ctl: 0 };
  for (const row of places) counts[row.owner]++;
  const label = `${queue.name}: ${counts.drv} places of the driver, ${counts.ring} in the ring, ${counts.ctl} of the controller`;
  const svg = drawn('svg', { viewBox: '-165 -118 330 232', role: 'img', 'aria-label': label });
  for (const run of runsOf(places)) {
    const path = drawn('path', { d: arc(run.from / size, run.to / size, 76, 50), class: `arc ${run.owner}` });
    if (at !== null && run.from <= at && at < run.to && size <= ALL_PLACES) path.classList.add('at');
    const range = run.to - run.from > 1 ? `places ${run.from} to ${run.to - 1}` : `place ${run.from}`;
    path.append(drawn('title', {}, `${range}: ${OWNERS[run.owner]}`));
    svg.append(path);
  }
  if (size <= 32) {
    for (let place = 0; place < size; place++) {
      const [x, y] = point(43, (place + 0.5) / size);
      svg.append(drawn('text', { x, y: y + 3, 'text-anchor': 'middle' }, place));
    }
  }
  for (const [place, names] of marksOf(state)) {
    const turn = (place + 0.5) / size;
    const [x, y] = point(78, turn), [u, v] = point(84, turn), [a, b] = point(88, turn);
    svg.append(drawn('line', { x1: x, y1: y, x2: u, y2: v }));
    svg.append(labelOf(names, a, b));
  }
  svg.append(drawn('text', { x: 0, y: 2, 'text-anchor': 'middle', class: 'name' }, queue.name));
  svg.append(drawn('text', { x: 0, y: 15, 'text-anchor': 'middle' }, CONTROLS[state.words.control]));
  return svg;
}

// ---- a queue

function knowledgeOf(state, before) {
  const box = element('div', { class: 'know' });
  for (const [part, title] of PARTS) {
    const list = element('dl', {});
    for (const [key, value] of Object.entries(state[part])) {
      const changed = before[part][key] !== value;
      list.append(element('dt', {}, NAMES[key] || key),
        element('dd', { 'data-key': `${part}.${key}`, class: changed ? 'changed' : null, title: key === 'control' || key === 'loaded' ? CONTROLS[value] : null }, value === null ? 'none' : String(value)));
    }
    box.append(element('section', { 'aria-label': title }, element('h3', {}, title), list));
  }
  return box;
}

function bitsOf(row) {
  if (row.owner === 'drv') return ['any'];
  return Object.entries(row.descriptor).map(([key, value]) => (FLAGS.has(key)
    ? element('span', { class: value ? 'bit set' : 'bit', title: `${key} ${value}` }, key, value ? null : element('span', { class: 'zero' }, ' 0'))
    : element('span', { class: 'field' }, `${key} ${value}`)));
}

function rowOf(row, marks, at) {
  const held = row.owner === 'ctl' && row.buffer === null;
  const classes = [row.owner, row.place === at ? 'at' : '', matchesPlace(row) ? 'hit' : ''].join(' ').trim();
  return element('tr', { class: classes, 'data-place': row.place, 'data-owner': row.owner },
    element('th', { scope: 'row' }, String(row.place)),
    element('td', { class: 'owner' }, OWNERS[row.owner]),
    element('td', { title: held ? 'the controller holds the buffer' : null }, row.buffer === null ? '–' : String(row.buffer)),
    element('td', { 'data-descriptor': JSON.stringify(row.descriptor) }, ...bitsOf(row)),
    element('td', {}, ...marks.map((name) => element('span', { class: 'pin' }, name))));
}

/** Whether a place of a long ring is shown. */
function isShown(row, size, marks, at) {
  return [row.place, (row.place + 1) % size, (row.place + size - 1) % size].some((place) => marks.has(place) || place === at)
    || matchesPlace(row);
}

function tableOf(queue, places, state, at) {
  const marks = marksOf(state);
  const body = element('tbody', {});
  let folded = false;
  for (const row of places) {
    if (queue.size <= ALL_PLACES || isShown(row, queue.size, marks, at)) {
      body.append(rowOf(row, marks.get(row.place) || [], at));
      folded = false;
    } else if (!folded) {
      body.append(element('tr', { class: 'fold' }, element('td', { colspan: 5 }, '···')));
      folded = true;
    }
  }
  const head = element('tr', {}, ...['place', 'owner', 'buffer', 'descriptor', 'marks'].map((name) => element('th', { scope: 'col' }, name)));
  return element('table', {}, element('caption', {}, 'Places'), element('thead', {}, head), body);
}

function queueOf(queue, number) {
  const move = number ? page.list.moves[number - 1] : null;
  const moved = move !== null && move.name === queue.name;
  const refused = moved && !move.told.made;
  const state = queue.after(number, page.list.moves);
  const before = number ? queue.after(number - 1, page.list.moves) : state;
  const places = queue.placesAfter(number, page.list.moves);
  const at = moved && move.state.at && (refused || noteOf(move) !== 'none') ? move.state.at.place : null;
  const title = queue.name[0] === 'r' ? 'Receive queue' : 'Transmit queue';
  return element('article', { class: ['queue', moved ? 'moved' : '', refused ? 'bad' : ''].join(' ').trim(), 'data-queue': queue.name, 'aria-label': `${title} ${queue.name}` },
    element('h2', {}, `${title} ${queue.name}`, element('small', {}, `${queue.size} descriptors`)),
    ringOf(queue, places, state, at), knowledgeOf(state, before), tableOf(queue, places, state, at));
}

// ---- the page

const page = { lists: [], list: null, number: 0, pair: null, timer: null, rows: [], query: null, onlyRefused: false };

function show(number) {
  const last = page.list.moves.length;
  page.number = Math.max(0, Math.min(last, number));
  const move = page.number ? page.list.moves[page.number - 1] : null;
  if (move && page.list.queues.has(move.name)) choosePair(move.name.slice(1));
  $('slider').value = page.number;
  $('slider').setAttribute('aria-valuetext', `${page.number} of ${last}${move ? `: ${move.state.line}` : ''}`);
  $('position').textContent = `${page.number} / ${last}`;
  showMove(move);
  showQueues();
  reveal(page.number);
  const hash = `#${page.lists.length > 1 ? `${page.lists.indexOf(page.list) + 1}.` : ''}${page.number}`;
  if (location.hash !== hash) history.replaceState(null, '', hash);
}

function showMove(move) {
  const now = $('now');
  now.className = move && !move.told.made ? 'bad' : '';
  $('where').textContent = move ? `Move ${page.number}: ${KINDS[move.kind] || ''}` : 'Before the first move';
  $('said').replaceChildren(move ? move.state.line : '—', move ? ' → ' : '',
    move ? element('span', { class: move.told.made ? null : 'bad' }, noteOf(move)) : '');
  $('told').textContent = move ? registersOf(move) : 'The queues as they begin';
}

function showQueues() {
  const queues = [`r${page.pair}`, `t${page.pair}`].map((name) => page.list.queues.get(name)).filter(Boolean);
  $('queues').replaceChildren(...queues.map((queue) => queueOf(queue, page.number)));
}

function choosePair(pair) {
  page.pair = pair;
  $('pair').value = pair;
}

function chooseList(index) {
  page.list = page.lists[index];
  const pairs = [...page.list.queues.keys()].filter((name) => name[0] === 'r').map((name) => name.slice(1));
  $('pair').replaceChildren(...pairs.map((pair) => element('option', { value: pair }, pair)));
  $('pairs').hidden = pairs.length < 2;
  choosePair(pairs[0]);
  $('slider').max = page.list.moves.length;
  const { made, read } = page.list.count || { made: '?', read: page.list.moves.length };
  $('count').textContent = `${made} of ${read} moves made`;
  $('refusals').textContent = `${page.list.refused.length} refused`;
  chooseRows();
}

// ---- the list of moves, of which only the visible rows exist

function chooseRows() {
  page.rows = page.onlyRefused ? page.list.refused : null;
  $('rows').style.height = `${rowCount() * ROW}px`;
  $('rows').style.position = 'relative';
  showRows();
}

const rowCount = () => (page.rows ? page.rows.length : page.list.moves.length);
const numberAt = (index) => (page.rows ? page.rows[index] : index + 1);

/** The index of the row of a move, or of the last one before it. */
function indexOf(number) {
  if (!page.rows) return number - 1;
  let index = -1;
  let low = 0, high = page.rows.length;
  while (low < high) {
    const middle = (low + high) >> 1;
    if (page.rows[middle] <= number) { index = middle; low = middle + 1; } else high = middle;
  }
  return index;
}

function showRows() {
  const box = $('moves');
  const from = Math.max(0, Math.floor(box.scrollTop / ROW) - 4);
  const to = Math.min(rowCount(), Math.ceil((box.scrollTop + box.clientHeight) / ROW) + 4);
  const rows = [];
  for (let index = from; index < to; index++) rows.push(moveRow(index));
  $('rows').replaceChildren(...rows);
  if (page.number && $(`move-${page.number}`)) box.setAttribute('aria-activedescendant', `move-${page.number}`);
  else box.removeAttribute('aria-activedescendant');
}

function moveRow(index) {
  const number = numberAt(index);
  const move = page.list.moves[number - 1];
  const classes = ['row', move.told.made ? '' : 'bad', matches(move) ? 'hit' : ''].join(' ').trim();
  const row = element('div', {
    class: classes, id: `move-${number}`, role: 'option', 'aria-selected': String(number === page.number),
    'aria-setsize': rowCount(), 'aria-posinset': index + 1, 'data-number': number, title: noteOf(move),
  }, element('span', { class: 'k' }, String(number)), element('span', {}, move.state.line),
  element('span', { class: 'note' }, (move.told.made ? '' : '✕ ') + noteOf(move)));
  row.style.top = `${index * ROW}px`;
  return row;
}

/** Scrolls the list to the row of a move, and marks it. */
function reveal(number) {
  const box = $('moves');
  const top = indexOf(number) * ROW;
  if (top < box.scrollTop) box.scrollTop = Math.max(0, top - 2 * ROW);
  else if (top + ROW > box.scrollTop + box.clientHeight) box.scrollTop = top + 3 * ROW - box.clientHeight;
  showRows();
}

// ---- searching

function queryNow() {
  const text = $('query').value.trim().toLowerCase();
  if (!text) return null;
  if ($('kind').value === 'text') return { text };
  return /^\\d+$/.test(text) ? { [$('kind').value]: Number(text) } : { text };
}

/** Whether a move is about the searched buffer or place, or has the text. */
function matches(move) {
  const query = page.query;
  if (!query) return false;
  if ('text' in query) return move.state.line.toLowerCase().includes(query.text) || noteOf(move).includes(query.text);
  const key = 'buffer' in query ? 'buffer' : 'place';
  const at = move.told.made && noteOf(move) !== 'none' ? move.state.at : null;
  return move.told[key] === query[key] || (at !== null && at !== undefined && at[key] === query[key]);
}

function matchesPlace(row) {
  const query = page.query;
  return query !== null && (('buffer' in query && row.buffer === query.buffer) || ('place' in query && row.place === query.place));
}

function searchAgain() {
  page.query = queryNow();
  const found = page.query ? page.list.moves.reduce((count, move) => count + (matches(move) ? 1 : 0), 0) : 0;
  $('matches').textContent = page.query ? `${found} moves` : '';
  showQueues();
  showRows();
}

/** Goes to the next or the previous match, around the end. */
function findFrom(step) {
  const count = page.list.moves.length;
  for (let passed = 1; page.query && passed <= count; passed++) {
    const number = ((page.number - 1 + step * passed) % count + count) % count + 1;
    if (matches(page.list.moves[number - 1])) return show(number);
  }
  return undefined;
}

function goRefused(step) {
  const refused = page.list.refused;
  const next = step > 0 ? refused.find((number) => number > page.number) : refused.filter((number) => number < page.number).pop();
  if (next !== undefined) show(next);
}

// ---- playing

function play(on) {
  clearInterval(page.timer);
  page.timer = on ? setInterval(() => {
    if (page.number >= page.list.moves.length) play(false); else show(page.number + 1);
  }, 1000 / Number($('speed').value)) : null;
  $('play').textContent = on ? 'Pause' : 'Play';
  $('play').setAttribute('aria-pressed', String(on));
}

function togglePlay() {
  if (page.timer === null && page.number >= page.list.moves.length) show(0);
  play(page.timer === null);
}

function toggleTheme() {
  const dark = getComputedStyle(document.documentElement).colorScheme === 'dark';
  document.documentElement.dataset.theme = dark ? 'light' : 'dark';
}

// ---- what the user does

const KEYS = {
  ArrowRight: () => show(page.number + 1), ArrowDown: () => show(page.number + 1),
  ArrowLeft: () => show(page.number - 1), ArrowUp: () => show(page.number - 1),
  PageDown: () => show(page.number + 10), PageUp: () => show(page.number - 10),
  Home: () => show(0), End: () => show(page.list.moves.length), ' ': togglePlay,
  n: () => goRefused(1), p: () => goRefused(-1), t: toggleTheme,
  '/': () => $('query').focus(), '?': () => $('keys').showModal(),
};

function onKey(event) {
  const { target } = event;
  if (event.ctrlKey || event.altKey || event.metaKey || $('keys').open) return;
  if (target === $('query')) {
    if (event.key === 'Escape') $('moves').focus();
    if (event.key === 'Enter' && event.shiftKey) { event.preventDefault(); findFrom(-1); }
    return;
  }
  if (target.tagName === 'SELECT' || (target.tagName === 'BUTTON' && (event.key === ' ' || event.key === 'Enter'))) return;
  const action = KEYS[event.key];
  if (!action) return;
  event.preventDefault();
  if (event.key !== ' ') play(false);
  action();
}

function listen() {
  const on = (id, event, action) => $(id).addEventListener(event, action);
  const go = (action) => () => { play(false); action(); };
  document.addEventListener('keydown', onKey);
  on('first', 'click', go(() => show(0)));
  on('back', 'click', go(() => show(page.number - 1)));
  on('on', 'click', go(() => show(page.number + 1)));
  on('last', 'click', go(() => show(page.list.moves.length)));
  on('play', 'click', togglePlay);
  on('speed', 'change', () => { if (page.timer !== null) play(true); });
  on('slider', 'input', go(() => show(Number($('slider').value))));
  on('theme', 'click', toggleTheme);
  on('help', 'click', () => $('keys').showModal());
  on('next-refused', 'click', go(() => goRefused(1)));
  on('previous-refused', 'click', go(() => goRefused(-1)));
  on('refused', 'click', () => {
    page.onlyRefused = !page.onlyRefused;
    $('refused').setAttribute('aria-pressed', String(page.onlyRefused));
    chooseRows();
    reveal(page.number);
  });
  on('search', 'submit', (event) => { event.preventDefault(); findFrom(1); });
  on('before', 'click', () => findFrom(-1));
  on('query', 'input', searchAgain);
  on('kind', 'change', searchAgain);
  on('pair', 'change', () => { choosePair($('pair').value); showQueues(); });
  on('list', 'change', go(() => { chooseList(Number($('list').value)); searchAgain(); show(0); }));
  on('moves', 'scroll', showRows);
  on('moves', 'click', (event) => {
    const row = event.target.closest('.row');
    if (row) { play(false); show(Number(row.dataset.number)); }
  });
  addEventListener('resize', showRows);
  addEventListener('hashchange', () => openAt(location.hash));
}

/** Opens the list and the move that `#list.move` or `#move` names. */
function openAt(hash) {
  const parts = hash.slice(1).split('.').map(Number).filter((part) => Number.isInteger(part) && part >= 0);
  const index = parts.length > 1 ? Math.min(parts[0], page.lists.length) - 1 : page.lists.indexOf(page.list);
  if (index >= 0 && page.lists[index] !== page.list) {
    $('list').value = index;
    chooseList(index);
  }
  show(parts.length ? parts[parts.length - 1] : 0);
}

function start() {
  page.lists = readLists($('data').textContent);
  $('data').textContent = '';
  $('list').replaceChildren(...page.lists.map((_, index) => element('option', { value: index }, String(index + 1))));
  $('lists').hidden = page.lists.length < 2;
  if (page.lists.length === 0) {
    $('now').textContent = 'There are no moves.';
    return;
  }
  listen();
  chooseList(0);
  openAt(location.hash);
  $('moves').focus({ preventScroll: true });
}

start();
</script>
</body>
</html>
";
